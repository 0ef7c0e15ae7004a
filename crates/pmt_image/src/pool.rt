//! Where a pool lies.

/// The addresses of a pool: `size` bytes from `origin` on, which its file holds in their order.
#[derive(Clone, Copy)]
pub struct Pool {
    /// The address of the first byte.
    pub origin: u64,
    /// How many bytes there are; 0 for an empty pool.
    pub size: u64,
}
