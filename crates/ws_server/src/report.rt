// What came of serving.
ghost use Rattle.ws_server.specs.Reports.{IsBoth, IsBounded, IsNew, IsSmall, IsWithin, OneMore};

use session::Ended;

/// How many visitors were served, and how that ended.
#[derive(Clone, Copy, Debug, PartialEq, Eq)]
pub struct Report {
    /// The visitors who were served and parted.
    pub visitors: u64,
    /// Those of them whose link was read to its end or to a close message.
    pub closed: u64,
    /// Those of them whose link failed.
    pub links: u64,
    /// How often memory was wanting: for a visitor, for a session, or before the first one.
    pub memory: u64,
    /// Those of them who sent as many messages as one session answers.
    pub many: u64,
    /// How often a door failed.
    pub doors: u64,
}

impl Report {
    /// A report of nothing.
    pub const fn new() -> Report
        ensures { IsNew result }
    {
        Report {
            visitors: 0,
            closed: 0,
            links: 0,
            memory: 0,
            many: 0,
            doors: 0,
        }
    }

    /// Counts a visitor by the end of the session.
    pub fn count(&mut self, ended: Ended)
        requires { IsSmall self.old }
        ensures { OneMore ended self.old self.new }
    {
        self.visitors = self.visitors.saturating_add(1);
        match ended {
            Ended::Closed => self.closed = self.closed.saturating_add(1),
            Ended::LinkFault => self.links = self.links.saturating_add(1),
            Ended::TooMany => self.many = self.many.saturating_add(1),
            Ended::Memory => self.memory = self.memory.saturating_add(1),
        }
    }

    /// Adds the numbers of another report.
    pub fn add(&mut self, other: &Report)
        requires within { IsWithin 4294967295 self.old }
        requires bounded { IsBounded other.now }
        ensures { IsBoth self.old other.now self.new }
    {
        self.visitors += other.visitors;
        self.closed += other.closed;
        self.links += other.links;
        self.memory += other.memory;
        self.many += other.many;
        self.doors += other.doors;
    }
}
