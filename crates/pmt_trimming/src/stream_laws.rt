//! What is out while events come, and what will be.

ghost use Rattle.pmt_trimming.specs.Streaming.{OutComesFirst};

/// Whatever comes later, the trimmed text of all of it begins with what is out.
pub fn out_comes_first()
    ensures { OutComesFirst }
{}
