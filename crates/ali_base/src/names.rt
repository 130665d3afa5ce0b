//! The two nodes and the three disks.
ghost use Rattle.std.specs.Prelude.{◌≡◌};
ghost use Rattle.ali_base.specs.NodeNames.{node_of, node_text};

/// One of the two nodes that keep the office's data.
#[derive(Clone, Copy, Debug, PartialEq, Eq)]
pub enum NodeName {
    A,
    B,
}

impl NodeName {
    /// The node that one letter writes, `a` or `b`, and no other bytes.
    pub fn read(bytes: &[u8]) -> Option<Self>
        ensures { result ≡ node_of bytes.now }
    {
        match bytes {
            [b'a'] => Some(NodeName::A),
            [b'b'] => Some(NodeName::B),
            _ => None,
        }
    }

    /// Its letter.
    pub fn text(self) -> [u8; 1]
        ensures { result ≡ node_text self }
    {
        match self {
            NodeName::A => [b'a'],
            NodeName::B => [b'b'],
        }
    }
}

/// One of the three disks: a journal for each node, and the duty register.
#[derive(Clone, Copy, Debug, PartialEq, Eq)]
pub enum DiskName {
    A,
    B,
    Duty,
}
