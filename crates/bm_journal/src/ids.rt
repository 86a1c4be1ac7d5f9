//! What entries name: objects, calls, domains of grace periods, and places of units.

use crate::level::Level;

/// An object: the number of the unit that it lies in, and which of that unit's lives it is, from 1. A unit number
/// names one object after another; with the life it names one alone.
#[derive(Clone, Copy, Debug, PartialEq, Eq)]
pub struct ObjId {
    pub unit: u16,
    pub life: u32,
}

/// A call of a script: its processor, and its place among all calls of that processor, from 1.
#[derive(Clone, Copy, Debug, PartialEq, Eq)]
pub struct Tag {
    pub processor: u8,
    pub serial: u32,
}

/// A domain of grace periods: the kernel's RCU, or its RCU tasks trace.
#[derive(Clone, Copy, Debug, PartialEq, Eq)]
pub enum Domain {
    Plain,
    Tracing,
}

/// Where a unit is. A number beside a place is a processor's; the lists are those of that processor's cache of the
/// unit's class. A unit handed out is live, with the number of its life.
#[derive(Clone, Copy, Debug, PartialEq, Eq)]
pub enum Place {
    Stock,
    Free(u8),
    Hand(u8, Level),
    Extra(u8),
    ExtraDelayed(u8),
    Delayed(u8),
    First(u8),
    Parcel(u8),
    Ready(u8),
    Second(u8),
    Live(u32),
}
