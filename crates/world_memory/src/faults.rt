//! Which calls are to fail.
ghost use Rattle.std.specs.Prelude.{◌≡◌, ◌==◌, take, if◌then◌else◌};
ghost use Rattle.cell_world.specs.Counts.{one_more};
ghost use Rattle.world_memory.specs.Faults.{place_of, planned, none_made, made_so_far, one_call, takes, front, with_plan, says, called};

use cell_world::items::Items;

/// A call of a world that can fail.
#[derive(Clone, Copy, PartialEq, Eq)]
pub enum CallName {
    Read,
    Floor,
    Scan,
    NextKey,
    Commit,
    Write,
    Reopen,
}

/// A call that is to fail.
#[derive(Clone, Copy)]
pub struct PlannedFault {
    pub call: CallName,
    /// Which of the calls of this name, counted from 1.
    pub number: u32,
    /// Whether a `commit` is made all the same.
    pub made: bool,
    /// How many bytes a `write` writes all the same; all of them where there are fewer.
    pub prefix: u32,
}

/// The calls that are to fail. Where two speak of one call, the first counts.
#[derive(Drop)]
pub struct FaultPlan {
    pub calls: Items<PlannedFault>,
}

/// How often each call was made.
#[derive(Clone, Copy)]
pub struct Calls {
    pub read: u64,
    pub floor: u64,
    pub scan: u64,
    pub next_key: u64,
    pub commit: u64,
    pub write: u64,
    pub reopen: u64,
}

/// A plan, and how often each call was made since the plan was given.
#[derive(Drop)]
pub struct Faults {
    pub plan: FaultPlan,
    pub calls: Calls,
}

impl CallName {
    /// Its place among the names.
    fn place(self) -> u8
        ensures { result ≡ place_of self }
    {
        match self {
            CallName::Read => 0,
            CallName::Floor => 1,
            CallName::Scan => 2,
            CallName::NextKey => 3,
            CallName::Commit => 4,
            CallName::Write => 5,
            CallName::Reopen => 6,
        }
    }
}

impl Calls {
    /// No call was made.
    fn none() -> Calls
        ensures { result ≡ none_made }
    {
        Calls {
            read: 0,
            floor: 0,
            scan: 0,
            next_key: 0,
            commit: 0,
            write: 0,
            reopen: 0,
        }
    }

    /// Counts a call.
    fn count(&mut self, call: CallName)
        ensures { self.new ≡ one_call self.old call }
    {
        match call {
            CallName::Read => self.read = self.read.saturating_add(1),
            CallName::Floor => self.floor = self.floor.saturating_add(1),
            CallName::Scan => self.scan = self.scan.saturating_add(1),
            CallName::NextKey => self.next_key = self.next_key.saturating_add(1),
            CallName::Commit => self.commit = self.commit.saturating_add(1),
            CallName::Write => self.write = self.write.saturating_add(1),
            CallName::Reopen => self.reopen = self.reopen.saturating_add(1),
        }
    }

    /// How often a call was made.
    pub fn of(&self, call: CallName) -> u64
        ensures { result ≡ made_so_far self.now call }
    {
        match call {
            CallName::Read => self.read,
            CallName::Floor => self.floor,
            CallName::Scan => self.scan,
            CallName::NextKey => self.next_key,
            CallName::Commit => self.commit,
            CallName::Write => self.write,
            CallName::Reopen => self.reopen,
        }
    }
}

/// What a plan says of the call of a name with a number.
fn planned(plan: &[PlannedFault], call: CallName, number: u64) -> Option<PlannedFault>
    ensures { result ≡ planned plan.now call number }
{
    plan.iter().copied().find(|fault| fault.call.place() == call.place()
        && u64::from(fault.number) == number)
}

impl Faults {
    /// This plan, before any call. Takes no memory.
    pub fn new(plan: FaultPlan) -> Faults
        ensures { result ≡ with_plan plan }
    {
        Faults {
            plan,
            calls: Calls::none(),
        }
    }

    /// Counts a call, and says what the plan says of it.
    pub fn called(&mut self, call: CallName) -> Option<PlannedFault>
        ensures says { result ≡ says self.old call }
        ensures counted { self.new ≡ called self.old call }
    {
        self.calls.count(call);
        let number = self.calls.of(call);
        planned(self.plan.calls.as_slice(), call, number)
    }
}

/// Whether a commit of which the plan says this is made.
pub fn takes(named: Option<PlannedFault>) -> bool
    ensures { result ≡ takes named }
{
    match named {
        Some(fault) => fault.made,
        None => true,
    }
}

/// The bytes that a write of which the plan says this writes.
pub fn front(named: Option<PlannedFault>, bytes: &[u8]) -> &[u8]
    ensures { result.now ≡ front named bytes.now }
{
    match named {
        Some(fault) => &bytes[..bytes.len().min(fault.prefix as usize)],
        None => bytes,
    }
}
