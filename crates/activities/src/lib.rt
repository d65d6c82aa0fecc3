// What a worker of a phase may be doing. No functions: the definitions are in specs/.
#![tactic(auto)]

// What a worker is doing, each activity with its own numbers. An entry is a key with a price, as a cell holds it (document 02: label times 2^32 plus
// price). Insert carries it whole; find and delete go by its key, and delete remembers with it what it read in a cell. The variants' fields are in an
// order that makes a worker 32 bytes.
#[derive(Clone, Copy)]
pub enum Activity {
    Idle,
    // Reads on from the home of the key of `entry`, now at `cell`.
    Reading {
        entry: u64,
        cell: u32,
    },
    // About to replace the content of `cell`. Insert: by `entry`, if the cell still holds `content`.
    // Delete: by `content`, read before in cell `from`, if the cell still holds `entry`.
    Replacing {
        entry: u64,
        cell: u32,
        from: u32,
        content: u64,
    },
    // Delete: walks back to the home of the key of `entry`, now at `cell`.
    WalkingBack {
        entry: u64,
        cell: u32,
    },
    // Delete: seeks a replacement for `entry` in `cell`, on the way forward, now at `at`.
    SeekingForward {
        entry: u64,
        cell: u32,
        at: u32,
    },
    // The same on the way back, now at `at`; `content`, read in cell `from`, is the nearest that may replace it so far.
    SeekingBack {
        at: u32,
        entry: u64,
        cell: u32,
        from: u32,
        content: u64,
    },
}

#[derive(Clone, Copy)]
pub struct Worker {
    pub activity: Activity,
}
