// The phase state (document 01: shift record) with its limits and its opening, and the refusals.
#![tactic(auto, using(std::proofs::lemmas::Bool::Decides::nat_tests))]

ghost use Rattle.std.specs.Prelude.{◌≤◌, cond, ◌≡◌, eqb, length};
ghost use Rattle.activities.specs.Kinds.{kind_ok};
ghost use Rattle.state.specs.Model.{gateway, model_of, size_ok, crew_ok};
ghost use Rattle.state.specs.Open.{fresh, refused_phase, hash_bars, sound_bars, table_bars, list_bars, open_reply, open_call};
ghost use Rattle.state.specs.Refusals.{number_of, fault_refusal, refusal_of, first_of};

use activities::{Activity, Worker};
use crowding::lines_crowded;
use homes::{Hash, is_even};
use lent::{Lines, lines_fault};
use orders::Fault;
use soundness::{Flaw, flaw_of};

// Why a call is refused: the words of document 01's table, in its order, then the numbers of document 02.
// `Unsound` is a table without an empty cell or with a cell that is wrong by itself, `Gap` and `Disorder` one whose labels break the way rule.
// `BadRecord` is a record of a till list that breaks the grammar or has not two fields, `BadField` one with a field that is no number. `Even` is an even a.
// `Absent` is a reply of a round whose label is not in the lent table. `Unfit` is a new table that cannot take what the old one holds. `TestNumber` is a label
// for factory tests, in an order that would put it in.
#[derive(Clone, Copy)]
pub enum Refusal {
    Size = 1,
    Crew = 2,
    Kind = 3,
    Unsound = 4,
    OtherTable = 5,
    NoWorker = 6,
    Blank = 7,
    Busy = 8,
    Full = 9,
    Working = 10,
    Shut = 11,
    ShortList = 12,
    Spoilt = 13,
    WrongPrice = 14,
    NoLine = 15,
    LongList = 16,
    Gap = 17,
    Disorder = 18,
    BadRecord = 19,
    BadField = 20,
    Even = 21,
    Absent = 22,
    Unfit = 23,
    TestNumber = 24,
}

impl Refusal {
    // Its number in the documents.
    pub fn number(self) -> u32
        ensures { result ≡ number_of self }
    {
        self as u32
    }
}

impl From<Fault> for Refusal {
    ghost from_gives = { λ fault why. why ≡ fault_refusal fault };

    fn from(fault: Fault) -> Refusal {
        match fault {
            Fault::Blank => Refusal::Blank,
            Fault::TestNumber => Refusal::TestNumber,
            Fault::WrongPrice => Refusal::WrongPrice,
            Fault::NoWorker => Refusal::NoWorker,
        }
    }
}

impl From<Flaw> for Refusal {
    ghost from_gives = { λ flaw why. why ≡ refusal_of flaw };

    fn from(flaw: Flaw) -> Refusal {
        match flaw {
            Flaw::Cells => Refusal::Unsound,
            Flaw::Gap => Refusal::Gap,
            Flaw::Disorder => Refusal::Disorder,
        }
    }
}

// The models of the gateway. Each call is told for which of them it is made: they differ in their limits alone.
#[derive(Clone, Copy)]
pub enum Device {
    Gateway,
    Kiosk,
}

// The state of a phase, in either model. Its hash function, by which the homes of keys are computed, is that of the opening.
#[derive(Clone, Copy)]
pub struct Phase {
    pub kind: u32,
    pub length: u32,
    pub crew: u32,
    pub shut: bool,
    pub hash: Hash,
    pub workers: [Worker; Phase::ROOM],
}

// A phase with the answer of the call that gave it.
#[derive(Clone, Copy)]
pub struct Replied {
    pub phase: Phase,
    pub reply: Result<(), Refusal>,
}

impl Phase {
    // The limits that both models have, and then the most cells and workers of each.
    pub const FEWEST_CELLS: usize = 2;

    pub const FEWEST_WORKERS: usize = 1;

    // The most lines of the list that an insert phase is opened with.
    pub const MOST_LINES: usize = 65536;

    pub const GATEWAY_CELLS: usize = 8192;

    pub const GATEWAY_WORKERS: usize = 16;

    pub const KIOSK_CELLS: usize = 256;

    pub const KIOSK_WORKERS: usize = 4;

    // The places for workers in a phase.
    pub const ROOM: usize = Self::GATEWAY_WORKERS;

    // The most cells of a table.
    fn most_cells(device: Device) -> usize
        ensures { result ≡ (model_of device).most_cells }
    {
        match device {
            Device::Gateway => Self::GATEWAY_CELLS,
            Device::Kiosk => Self::KIOSK_CELLS,
        }
    }

    // The most workers of a phase.
    fn most_workers(device: Device) -> usize
        ensures { result ≡ (model_of device).most_workers }
    {
        match device {
            Device::Gateway => Self::GATEWAY_WORKERS,
            Device::Kiosk => Self::KIOSK_WORKERS,
        }
    }

    // Whether a table may have `length` cells.
    pub fn size_ok(device: Device, length: usize) -> bool
        ensures { result ≡ size_ok (model_of device) length }
    {
        (Self::FEWEST_CELLS..=Self::most_cells(device)).contains(&length)
    }

    // Whether a phase may have `crew` workers.
    pub fn crew_ok(device: Device, crew: usize) -> bool
        ensures { result ≡ crew_ok (model_of device) crew }
    {
        (Self::FEWEST_WORKERS..=Self::most_workers(device)).contains(&crew)
    }

    // Whether a phase may have this kind.
    pub fn kind_ok(kind: u64) -> bool
        ensures { result ≡ kind_ok kind }
    {
        (1..=3).contains(&kind)
    }

    // A phase with all workers idle. This and whatever else reads no limit in which the models differ is the same in each, and told of the gateway.
    fn fresh(kind: u32, length: u32, crew: u32, shut: bool, hash: Hash) -> Phase
        ensures { result ≡ fresh gateway kind length crew shut hash }
    {
        let workers = [Worker {
            activity: Activity::Idle,
        }; Self::ROOM];
        Phase {
            kind,
            length,
            crew,
            shut,
            hash,
            workers,
        }
    }

    fn refused(why: Refusal) -> Replied
        ensures { result ≡ record { phase = refused_phase gateway; reply = Err why } }
    {
        Replied {
            phase: Self::fresh(3, 2, 1, true, Hash { a: 1, b: 0 }),
            reply: Err(why),
        }
    }

    // Whether the table is sound or, if it is not, why.
    #[tactic(auto, using(crate::proofs::Soundness::flaw_rules))]
    fn soundness(hash: Hash, cells: &[u64]) -> Result<(), Refusal>
        requires { length cells.now ≤ 8192 }
        ensures { result ≡ first_of (sound_bars gateway hash cells.now) }
    {
        flaw_of(hash, cells)?;
        Ok(())
    }

    // An even a is refused.
    fn hash_checked(hash: Hash) -> Result<(), Refusal>
        ensures { result ≡ first_of (hash_bars hash) }
    {
        if is_even(hash) {
            return Err(Refusal::Even);
        }
        Ok(())
    }

    // Whether a table may have its length and its hash function, and is sound or, if it is not, why.
    #[tactic(auto, using(crate::proofs::Soundness::check_rules))]
    pub fn check(device: Device, hash: Hash, cells: &[u64]) -> Result<(), Refusal>
        ensures { result ≡ first_of (table_bars (model_of device) hash cells.now) }
    {
        if !Self::size_ok(device, cells.len()) {
            return Err(Refusal::Size);
        }
        Self::hash_checked(hash)?;
        Self::soundness(hash, cells)
    }

    // What an opening is refused for behind its numbers and its hash function: the table's flaw and, of an insert phase, which alone reads the list, too long a
    // list before it, a bad line and too many labels behind it.
    #[tactic(auto, using(crate::proofs::Opening::list_rules))]
    fn list_checked<L: Lines>(
        kind: u64,
        crew: u64,
        hash: Hash,
        cells: &[u64],
        list: L,
    ) -> Result<(), Refusal>
        requires { (length cells.now ≤ 8192) × (crew ≤ 16) }
        ensures { result ≡ first_of (cond (eqb kind 1) (list_bars gateway kind crew hash cells.now (L.orders list)) (sound_bars gateway hash cells.now)) }
    {
        if kind != 1 {
            return Self::soundness(hash, cells);
        }
        if Self::MOST_LINES < list.count() {
            return Err(Refusal::LongList);
        }
        Self::soundness(hash, cells)?;
        lines_fault(list, crew as u32)?;
        if lines_crowded(cells, list) {
            return Err(Refusal::Full);
        }
        Ok(())
    }

    // Whether an opening is accepted or, if it is not, why.
    #[tactic(auto, using(crate::proofs::Opening::open_rules))]
    fn open_checked<L: Lines>(
        device: Device,
        kind: u64,
        crew: u64,
        hash: Hash,
        cells: &[u64],
        list: L,
    ) -> Result<(), Refusal>
        ensures { result ≡ open_reply (model_of device) kind crew hash cells.now (L.orders list) }
    {
        if !Self::size_ok(device, cells.len()) {
            return Err(Refusal::Size);
        }
        if !Self::crew_ok(device, crew as usize) {
            return Err(Refusal::Crew);
        }
        if !Self::kind_ok(kind) {
            return Err(Refusal::Kind);
        }
        Self::hash_checked(hash)?;
        Self::list_checked(kind, crew, hash, cells, list)
    }

    // Opens a phase of a model and a kind, with a crew of so many workers and a hash function, on a table; an insert phase with a list of orders, which the other
    // kinds do not read.
    pub fn open<L: Lines>(
        device: Device,
        kind: u64,
        crew: u64,
        hash: Hash,
        cells: &[u64],
        list: L,
    ) -> Replied
        ensures { result ≡ open_call (model_of device) kind crew hash cells.now (L.orders list) }
    {
        match Self::open_checked(device, kind, crew, hash, cells, list) {
            Ok(()) => Replied {
                phase: Self::fresh(kind as u32, cells.len() as u32, crew as u32, false, hash),
                reply: Ok(()),
            },
            Err(why) => Self::refused(why),
        }
    }
}
