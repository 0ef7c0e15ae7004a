//! The bytes of a store, and where they go.
ghost use Rattle.std.specs.Prelude.{◌≡◌, ◌+◌, ◌%◌, ◌≤◌, length};
ghost use Rattle.pmt_model.specs.Values.{payload_of, word_store_of, AreBytes, IsStore};

use crate::addr::Addr;
use crate::fault::OpError;
use std::marker::Model;

/// The bytes of one store: 1 to 8.
#[derive(Clone, Copy, Debug, PartialEq, Eq)]
pub struct Payload {
    held: [u8; 8],
    len: u8,
}

impl Model for Payload {
    ghost use Rattle.std.specs.Prelude.{ℕ, List, take};

    ghost Value = { List ℕ };

    ghost use Rattle.pmt_model.specs.Stored.{IsStored, stored_of, stored_back};

    ghost view = { λ p. take p.len p.held };

    ghost invariant = { IsStored };

    ghost inverse = { stored_of };

    ghost inverse_ok = { stored_back };
}

impl Payload {
    /// A payload of these bytes.
    ///
    /// # Errors
    /// `BadLength` where there are none, or more than 8.
    pub fn new(bytes: &[u8]) -> Result<Self, OpError>
        ensures { result ≡ payload_of bytes.now }
    {
        if bytes.is_empty() || bytes.len() > 8 {
            return Err(OpError::BadLength);
        }
        let mut held = [0; 8];
        held[..bytes.len()].copy_from_slice(bytes);
        Ok(Payload {
            held,
            len: bytes.len() as u8,
        })
    }

    /// The bytes, 1 to 8 of them.
    pub fn bytes(&self) -> &[u8]
        ensures value { result.now ≡ self.now }
        ensures some { 1 ≤ length self.now }
        ensures within { length self.now ≤ 8 }
        ensures each { AreBytes self.now }
    {
        &self.held[..self.len as usize]
    }
}

/// A store that persists whole or not at all: 1 to 8 bytes inside one aligned word of 8 (own profile).
#[derive(Clone, Copy, Debug, PartialEq, Eq)]
pub struct WordStore {
    addr: Addr,
    payload: Payload,
}

impl Model for WordStore {
    ghost use Rattle.pmt_model.specs.Values.{Written, IsStore};

    ghost Value = { Written };

    ghost view = { λ s. record { addr = s.addr; bytes = s.payload } };

    ghost invariant = { λ s. IsStore (record { addr = s.addr; bytes = s.payload }) };

    ghost inverse = { λ w. record { addr = w.addr; payload = w.bytes } };
}

impl WordStore {
    /// A store of the payload at the address.
    ///
    /// # Errors
    /// `CrossesWord` where it does not lie inside one aligned word.
    pub fn new(addr: Addr, payload: Payload) -> Result<Self, OpError>
        ensures { result ≡ word_store_of addr payload }
    {
        if addr.get() % 8 + payload.bytes().len() as u64 <= 8 {
            Ok(WordStore { addr, payload })
        } else {
            Err(OpError::CrossesWord)
        }
    }

    /// The address of the first byte.
    pub fn addr(&self) -> Addr
        ensures value { result ≡ self.now.addr }
        ensures is_store { IsStore self.now }
    {
        self.addr
    }

    /// The bytes, 1 to 8 of them.
    pub fn bytes(&self) -> &[u8]
        ensures value { result.now ≡ self.now.bytes }
        ensures is_store { IsStore self.now }
    {
        let _ = &self.addr;
        self.payload.bytes()
    }
}
