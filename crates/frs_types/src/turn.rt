//! Where a test holds a client.

/// Is told how far each client came. It says nothing in a contract: a test uses it to hold a client at a line.
pub trait Turn {
    /// Called before the client's command at the line of its file, and by the compactor, as client 0 and line 0,
    /// after each entry that it wrote again.
    fn at(&self, client: u32, line: u32);
}

/// Holds nobody.
#[derive(Clone, Copy, Debug, PartialEq, Eq)]
pub struct NoTurn;

impl Turn for NoTurn {
    fn at(&self, client: u32, line: u32) {
        let _ = (client, line);
    }
}
