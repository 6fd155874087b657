//! Why something is refused: what the refusal is called, its number, and where it is.

use std::error::Error;
use std::fmt;
use std::marker::Model;

/// A refusal by its name and its number.
#[derive(Clone, Copy, Debug, Drop, PartialEq, Eq)]
pub struct Cause {
    pub name: &'static str,
    pub number: u8,
}

/// The causes of a reason, the outermost first. Those that are `None` are passed over.
#[derive(Clone, Copy, Debug, Drop, PartialEq, Eq)]
pub struct Causes {
    pub first: Cause,
    pub second: Option<Cause>,
    pub third: Option<Cause>,
    pub fourth: Option<Cause>,
}

/// One to four causes: a refusal, and before it those that carry it, the outermost first.
#[derive(Clone, Copy, Debug, Drop, PartialEq, Eq)]
enum Path {
    One(Cause),
    Two(Cause, Cause),
    Three(Cause, Cause, Cause),
    Four(Cause, Cause, Cause, Cause),
}

/// Why something is refused. It is written with points between the names and between the numbers, as `EmptyText (6)` and
/// `Text.EmptyText (1.6)`.
#[derive(Debug, Drop)]
pub struct Reason {
    path: Path,
    place: Option<u32>,
    inner_place: Option<u32>,
}

impl Model for Reason {
    ghost use Rattle.plain_types.specs.Reasons.{PlainReason, causes_of};

    ghost Value = { PlainReason };

    ghost view = { λ why. record { causes = causes_of why.path; place = why.place; inner_place = why.inner_place } };
}

impl Reason {
    ghost use Rattle.std.specs.Prelude.{◌≡◌, ◌≤◌, Some, None, length};
    ghost use Rattle.plain_types.specs.Reasons.{refused, carried, with_inner_place, listed_causes};

    /// A refusal that carries no other, and its byte of the text where it has one.
    pub fn new(name: &'static str, number: u8, place: Option<u32>) -> Reason
        ensures { result ≡ refused name.now number place }
    {
        Reason {
            path: Path::One(Cause { name, number }),
            place,
            inner_place: None,
        }
    }

    /// A refusal that carries this one, and has its places.
    pub fn behind(self, name: &'static str, number: u8) -> Reason
        requires { length self.causes ≤ 3 }
        ensures { result ≡ carried name.now number self }
    {
        let outer = Cause { name, number };
        let path = match self.path {
            Path::One(own) => Path::Two(outer, own),
            Path::Two(first, own) => Path::Three(outer, first, own),
            Path::Three(first, second, own) => Path::Four(outer, first, second, own),
            Path::Four(..) => unreachable!(),
        };
        Reason {
            path,
            place: self.place,
            inner_place: self.inner_place,
        }
    }

    /// This refusal, placed at a byte of a text. What was its place becomes its place in what stands there.
    pub fn inside(self, at: u32) -> Reason
        ensures { result ≡ with_inner_place self at }
    {
        Reason {
            path: self.path,
            place: Some(at),
            inner_place: self.place,
        }
    }

    /// Its causes, for who writes them.
    pub fn causes(&self) -> Causes
        ensures { listed_causes result ≡ self.now.causes }
    {
        match self.path {
            Path::One(first) => Causes {
                first,
                second: None,
                third: None,
                fourth: None,
            },
            Path::Two(first, second) => Causes {
                first,
                second: Some(second),
                third: None,
                fourth: None,
            },
            Path::Three(first, second, third) => Causes {
                first,
                second: Some(second),
                third: Some(third),
                fourth: None,
            },
            Path::Four(first, second, third, fourth) => Causes {
                first,
                second: Some(second),
                third: Some(third),
                fourth: Some(fourth),
            },
        }
    }

    /// The byte of the text where it is, where it has one.
    pub fn place(&self) -> Option<u32>
        ensures { result ≡ self.now.place }
    {
        self.place
    }

    /// The byte in what stands at its place, where it has one: of a condition in a rule.
    pub fn inner_place(&self) -> Option<u32>
        ensures { result ≡ self.now.inner_place }
    {
        self.inner_place
    }
}

/// The names of a path, with points between them.
#[derive(Drop)]
struct Names<'a> {
    path: &'a Path,
}

/// The numbers of a path, with points between them.
#[derive(Drop)]
struct Numbers<'a> {
    path: &'a Path,
}

impl fmt::Display for Names<'_> {
    ghost use Rattle.std.specs.Prelude.{Some};
    ghost use Rattle.plain_types.specs.Reasons.{names_of, causes_of};

    ghost output = { λ names. Some (names_of (causes_of names.path.now)) };

    fn fmt<W: fmt::Write>(&self, f: &mut fmt::Formatter<W>) -> fmt::Result {
        match self.path {
            Path::One(a) => write!(f, "{}", a.name),
            Path::Two(a, b) => write!(f, "{}.{}", a.name, b.name),
            Path::Three(a, b, c) => write!(f, "{}.{}.{}", a.name, b.name, c.name),
            Path::Four(a, b, c, d) => write!(f, "{}.{}.{}.{}", a.name, b.name, c.name, d.name),
        }
    }
}

impl fmt::Display for Numbers<'_> {
    ghost use Rattle.std.specs.Prelude.{Some};
    ghost use Rattle.plain_types.specs.Reasons.{numbers_of, causes_of};

    ghost output = { λ numbers. Some (numbers_of (causes_of numbers.path.now)) };

    fn fmt<W: fmt::Write>(&self, f: &mut fmt::Formatter<W>) -> fmt::Result {
        match self.path {
            Path::One(a) => write!(f, "{}", a.number),
            Path::Two(a, b) => write!(f, "{}.{}", a.number, b.number),
            Path::Three(a, b, c) => write!(f, "{}.{}.{}", a.number, b.number, c.number),
            Path::Four(a, b, c, d) => {
                write!(f, "{}.{}.{}.{}", a.number, b.number, c.number, d.number)
            }
        }
    }
}

impl fmt::Display for Reason {
    ghost use Rattle.std.specs.Prelude.{Some};
    ghost use Rattle.plain_types.specs.Reasons.{written};

    ghost output = { λ why. Some (written why) };

    fn fmt<W: fmt::Write>(&self, f: &mut fmt::Formatter<W>) -> fmt::Result {
        let names = Names { path: &self.path };
        let numbers = Numbers { path: &self.path };
        write!(f, "{names} ({numbers})")
    }
}

/// An error that tells why something is refused.
pub trait HasReason {
    ghost use Rattle.std.specs.Prelude.{ℕ, ◌≡◌, ◌≤◌, length};
    ghost use Rattle.plain_types.specs.Reasons.{PlainReason};

    /// Why it is refused, as contracts see it.
    ghost reason_of: { Self → PlainReason };

    /// How many causes its reason has at most.
    ghost depth: { ℕ };

    /// Why it is refused: each cause with its name and its number, and the places.
    fn reason(&self) -> Reason
        ensures value { result ≡ reason_of self.now }
        ensures depth { length (reason_of self.now).causes ≤ depth };
}
