//! What a run reports.
ghost use Rattle.std.specs.Prelude.{◌≡◌};
ghost use Rattle.run_host.specs.Report.{stuck_meant, stuck_number, stuck_name};

use crate::HostCall;
use rhai_base::{Dynamic, ImmutableString, Seq};

/// Why a run is stuck.
#[derive(Clone, Copy, Debug, PartialEq, Eq)]
pub enum Stuck {
    /// A name that nothing has.
    Unbound,
    /// A value or a node of a kind that means nothing there.
    WrongKind,
    /// A write to a constant.
    WriteToConstant,
    /// A write to what has no place.
    NoPlace,
    /// A loop's counter past the greatest integer.
    CounterTooLarge,
    /// `this` where it is not bound.
    UnboundThis,
    /// A path that leads to no module.
    UnknownModule,
}

impl Stuck {
    /// Its number, from 1.
    pub fn number(self) -> u8
        ensures { result ≡ stuck_number (stuck_meant self) }
    {
        match self {
            Stuck::Unbound => 1,
            Stuck::WrongKind => 2,
            Stuck::WriteToConstant => 3,
            Stuck::NoPlace => 4,
            Stuck::CounterTooLarge => 5,
            Stuck::UnboundThis => 6,
            Stuck::UnknownModule => 7,
        }
    }

    /// Its name.
    pub fn name(self) -> &'static str
        ensures { result.now ≡ stuck_name (stuck_meant self) }
    {
        match self {
            Stuck::Unbound => "Unbound",
            Stuck::WrongKind => "WrongKind",
            Stuck::WriteToConstant => "WriteToConstant",
            Stuck::NoPlace => "NoPlace",
            Stuck::CounterTooLarge => "CounterTooLarge",
            Stuck::UnboundThis => "UnboundThis",
            Stuck::UnknownModule => "UnknownModule",
        }
    }
}

/// How a run ends.
#[derive(Debug, Drop, PartialEq, Eq)]
pub enum RunEnd {
    /// With the script's value.
    Value(Dynamic),
    /// With a thrown value.
    Thrown(Dynamic),
    /// Stuck.
    Stuck(Stuck),
    /// A turn was needed, and none was left.
    OutOfTurns,
}

/// A name, whether it is a constant, and its value.
pub type Variable = (ImmutableString, bool, Dynamic);

/// An exported name, and its value.
pub type Export = (ImmutableString, Dynamic);

/// A run's end, and what it left.
#[derive(Debug, Drop, PartialEq, Eq)]
pub struct RunReport {
    /// How it ended.
    pub run_end: RunEnd,
    /// The names of the start scope, and then those added at top level, in order.
    pub variables: Seq<Variable>,
    /// The exports of the script's own list, in order.
    pub exports: Seq<Export>,
    /// The calls to the host, in order.
    pub calls: Seq<HostCall>,
    /// The turns left.
    pub turns_left: u64,
}
