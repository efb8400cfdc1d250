use gds_header::Header;
use gds_search::Place;
use m_key::{Key, Reference};
use std::alloc::Global;

/// Where a block stands, and what is due there.
#[derive(Drop)]
pub(crate) struct Stand {
    pub(crate) block: u32,
    /// The name of its global. `None` stands for the directory.
    pub(crate) name: Option<Vec<u8>>,
    /// Its level. A root has none.
    pub(crate) level: Option<u8>,
    /// Its bounds, which are empty where there are none.
    pub(crate) low: Vec<u8>,
    pub(crate) high: Vec<u8>,
}

/// What commands work on.
#[derive(Drop)]
pub(crate) struct Bench {
    /// The bytes of a block or of a header.
    pub(crate) bytes: Vec<u8>,
    /// The key of the last entry that was put into the block.
    pub(crate) previous: Vec<u8>,
    /// A text to which others are printed.
    pub(crate) text: Vec<u8>,
    /// The key that was made last.
    pub(crate) key: Key,
    /// References that are compared.
    pub(crate) list: Vec<Reference>,
    /// The header that was made or read last.
    pub(crate) header: Header,
    /// The place that was found last.
    pub(crate) place: Place,
    pub(crate) stand: Stand,
    /// How many faults a sink has room for.
    pub(crate) room: usize,
    /// How many reads of the file are left before they fail.
    pub(crate) reads: u64,
    /// The bytes of a database file.
    pub(crate) file: Vec<u8>,
}

/// The header of a new file of 100 blocks of 1,024 bytes.
pub(crate) const HUNDRED: Header = Header {
    block_size: 1024,
    total: 100,
    free: 97,
    extension: 100,
    limit: 1_048_576,
    key_max: 64,
    value_max: 400,
    tn: 1,
    master: [0; 256],
};

/// The front of a block without records.
const FRONT: Place = Place {
    offset: 16,
    is_equal: false,
    shared: 0,
    next_shared: 0,
};

impl Stand {
    /// A block of the directory.
    fn new(alloc: Global) -> Stand {
        Stand {
            block: 0,
            name: None,
            level: None,
            low: Vec::new(alloc),
            high: Vec::new(alloc),
        }
    }
}

impl Bench {
    pub(crate) fn new(alloc: Global) -> Bench {
        Bench {
            bytes: Vec::new(alloc),
            previous: Vec::new(alloc),
            text: Vec::new(alloc),
            key: Key::new(),
            list: Vec::new(alloc),
            header: HUNDRED,
            place: FRONT,
            stand: Stand::new(alloc),
            room: usize::MAX,
            reads: u64::MAX,
            file: Vec::new(alloc),
        }
    }

    /// A new case: nothing of the last one stays.
    pub(crate) fn clear(&mut self, alloc: Global) {
        self.bytes.clear();
        self.previous.clear();
        self.text.clear();
        self.key = Key::new();
        self.list.clear();
        self.header = HUNDRED;
        self.place = FRONT;
        self.stand = Stand::new(alloc);
        self.room = usize::MAX;
        self.reads = u64::MAX;
        self.file.clear();
    }
}
