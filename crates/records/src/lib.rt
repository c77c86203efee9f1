// The records that the file format, the semantics and the engine share.
#![tactic(auto)]

ghost use Rattle.std.specs.Prelude.{◌≡◌, ◌+◌, Some};
ghost use Rattle.records.specs.Codes.{kind_code, kind_of, KindOf, sign_code, sign_of, SignOf, label, takes_part};
ghost use Rattle.records.specs.Words.{kind_word, sign_word, unknown_code};

use std::error::Error;
use std::fmt;

// How many places a network has at most.
pub const PLACES: usize = 8;

// In a rule, the label of a place that does not take part; on a formula's edge, the label of a plain one.
// It stays a label: `Option<u16>` would have two ways to say idle, `None` and the file's own 65,535.
pub const NONE: u16 = 65535;

// What a node's value is made of: the join of its edges, their meet, or a value of its own.
#[derive(Clone, Copy, PartialEq, Debug)]
pub enum Kind {
    AnyOf,
    AllOf,
    Fixed,
}

// Which solution of its equations a block takes.
#[derive(Clone, Copy, PartialEq, Debug)]
pub enum Sign {
    Least,
    Greatest,
}

// A code that stands for no kind, or for no sign.
#[derive(Clone, Copy, PartialEq, Debug)]
pub struct UnknownCode(pub u8);

// A synchronisation rule: what it asks of each place, `NONE` where the place is idle, and the label it shows.
#[derive(Clone, Copy, PartialEq, Debug)]
pub struct Rule {
    pub labels: [u16; PLACES],
    pub result: u16,
}

// A node of a graph in memory: its edges are `count` entries of the edge memory from `first` on. A range and not a
// `Vec`, since graphs stand in memory of fixed size that callers lend.
#[derive(Clone, Copy, PartialEq, Debug)]
pub struct Node {
    pub kind: Kind,
    pub block: u8,
    pub first: u32,
    pub count: u32,
    pub value: u64,
}

// When an edge leads on: always, or when the rule of that number does.
// `Option<u16>` would be no plainer: it names neither a plain edge nor what the number counts.
#[derive(Clone, Copy, PartialEq, Debug)]
pub enum Guard {
    Plain,
    By { rule: u16 },
}

// An edge of a graph in memory.
#[derive(Clone, Copy, PartialEq, Debug)]
pub struct Edge {
    pub guard: Guard,
    pub weight: u64,
    pub target: u32,
}

impl From<Kind> for u8 {
    ghost from_gives = { λ k c. c ≡ kind_code k };

    fn from(kind: Kind) -> u8 {
        match kind {
            Kind::AnyOf => 0,
            Kind::AllOf => 1,
            Kind::Fixed => 2,
        }
    }
}

// An impl for each enum: a macro could write no ghost member.
impl TryFrom<u8> for Kind {
    type Error = UnknownCode;

    ghost try_from_gives = { KindOf };

    fn try_from(code: u8) -> Result<Kind, UnknownCode> {
        match code {
            0 => Ok(Kind::AnyOf),
            1 => Ok(Kind::AllOf),
            2 => Ok(Kind::Fixed),
            _ => Err(UnknownCode(code)),
        }
    }
}

impl Kind {
    // The kind of a code; every code past 1 is read as fixed. It stays beside `try_from` for bytes that no check has seen.
    pub fn of(code: u8) -> Kind
        ensures { result ≡ kind_of code }
    {
        Kind::try_from(code).unwrap_or(Kind::Fixed)
    }
}

impl fmt::Display for Kind {
    ghost output = { λ k. Some (kind_word k) };

    fn fmt<W: fmt::Write>(&self, f: &mut fmt::Formatter<W>) -> fmt::Result {
        f.write_str(match self {
            Kind::AnyOf => "any-of",
            Kind::AllOf => "all-of",
            Kind::Fixed => "fixed",
        })
    }
}

impl From<Sign> for u8 {
    ghost from_gives = { λ s c. c ≡ sign_code s };

    fn from(sign: Sign) -> u8 {
        match sign {
            Sign::Least => 0,
            Sign::Greatest => 1,
        }
    }
}

// As for kinds, an impl of its own.
impl TryFrom<u8> for Sign {
    type Error = UnknownCode;

    ghost try_from_gives = { SignOf };

    fn try_from(code: u8) -> Result<Sign, UnknownCode> {
        match code {
            0 => Ok(Sign::Least),
            1 => Ok(Sign::Greatest),
            _ => Err(UnknownCode(code)),
        }
    }
}

impl Sign {
    // The sign of a code; every code past 0 is read as greatest. It stays beside `try_from` likewise.
    pub fn of(code: u8) -> Sign
        ensures { result ≡ sign_of code }
    {
        Sign::try_from(code).unwrap_or(Sign::Greatest)
    }
}

impl fmt::Display for Sign {
    ghost output = { λ s. Some (sign_word s) };

    fn fmt<W: fmt::Write>(&self, f: &mut fmt::Formatter<W>) -> fmt::Result {
        f.write_str(match self {
            Sign::Least => "least",
            Sign::Greatest => "greatest",
        })
    }
}

impl fmt::Display for UnknownCode {
    ghost output = { λ u. Some (unknown_code u) };

    fn fmt<W: fmt::Write>(&self, f: &mut fmt::Formatter<W>) -> fmt::Result {
        let code = self.0;
        write!(f, "nothing has the code {code}")
    }
}

impl Error for UnknownCode {}

impl Node {
    // Where the node's edges end.
    pub fn end(&self) -> u64
        ensures { result ≡ self.now.first + self.now.count }
    {
        u64::from(self.first) + u64::from(self.count)
    }
}

impl Rule {
    // The label that the rule asks of a place, `NONE` where the place is idle or there is none such.
    pub fn label(&self, place: u8) -> u16
        ensures { result ≡ label self.now place }
    {
        self.labels.get(usize::from(place)).copied().unwrap_or(NONE)
    }

    pub fn takes_part(&self, place: u8) -> bool
        ensures { result ≡ takes_part self.now place }
    {
        self.label(place) != NONE
    }
}
