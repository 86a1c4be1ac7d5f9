//! The entries of a log.

use crate::ids::{Domain, ObjId, Tag};
use crate::period::{Period, Values};
use crate::units::Units;
use bm_class::Class;
use bm_word::Name;

/// One entry of a processor's log: one variant for each form of line, with what the line names, in its order.
/// docs/journals.md says what each one means. Only lists of units take memory.
#[derive(Debug, Drop)]
pub enum Entry {
    /// At the opening a cache of a class is filled with these units from the stock, one by one.
    Fill(Class, Units),
    /// A script of ordinary code begins.
    Script(Name),
    /// A script of ordinary code ends.
    Done(Name),
    /// A handler begins.
    Handler(Name),
    /// A handler ends.
    Back(Name),
    /// The outermost section of a domain begins, with its new word.
    In(Domain, u32),
    /// The outermost section of a domain ends, with its new word.
    Out(Domain, u32),
    /// A script gives up its turn.
    Yield,
    /// The processor's scripts have ended.
    Ended,
    /// The closing begins.
    Close,
    /// A call: an object of a type is asked for, with the values of its fields.
    New(Name, Values),
    /// A reply to `New`: the unit and its new life.
    Given(u16, u32),
    /// The same, where the life before ended by a delayed free: with the plain stamp and the number seen for it.
    GivenAfter(u16, u32, u32, u32),
    /// A reply to `New`: the cache had no free unit.
    Empty,
    /// A reply to `New`: the cache was in use, with its active number.
    Busy(u32),
    /// A call: a reference to this unit's life is given up.
    Drop(u16, u32),
    /// A reply to `Drop`: there are other references, with the count seen.
    Still(u32),
    /// A reply to `Drop`: it was the last reference.
    Last,
    /// A plain free of a unit begins, with the unit's home.
    Free(u16, u8),
    /// A delayed free of a unit begins, with the unit's home.
    Delay(u16, u8),
    /// A call: one more reference to this unit's life, with the count seen.
    Acquire(u16, u32, u32),
    /// A call: a field of this unit's life is read, with the field's place from 0 and its value.
    Get(u16, u32, u8, u32),
    /// A call: a slot's content is exchanged. What was put in, what was there, and which call had put it.
    Xchg(Name, Option<ObjId>, Option<ObjId>, Option<Tag>),
    /// The lock of a list or tree is taken.
    Lock(Name),
    /// The lock of a list or tree is given back.
    Unlock(Name),
    /// A call: an object is put at the front of a list, with the position of the call in the list's history.
    PushFront(Name, u16, u32, u32),
    /// A call: an object is put at the back of a list.
    PushBack(Name, u16, u32, u32),
    /// A call: an object is added to a tree.
    Add(Name, u16, u32, u32),
    /// A refused push at the front: the object stands in the list or tree named behind it already.
    PushFrontAlready(Name, u16, u32, Name, u32),
    /// A refused push at the back.
    PushBackAlready(Name, u16, u32, Name, u32),
    /// A refused addition.
    AddAlready(Name, u16, u32, Name, u32),
    /// A call: the front of a list is taken, if there is any.
    PopFront(Name, Option<ObjId>, u32),
    /// A call: the back of a list is taken, if there is any.
    PopBack(Name, Option<ObjId>, u32),
    /// A call: the least object of a tree is looked up, if there is any.
    First(Name, Option<ObjId>, u32),
    /// A call: an object is taken out of a tree.
    Remove(Name, u16, u32, u32),
    /// Deferred work of a class begins, and its flag is lowered.
    Work(Class),
    /// A grace period of a domain begins, with its odd number.
    Begin(Domain, u32),
    /// A grace period ends.
    Finish(Period),
    /// A step: a cache's active number was raised to this.
    Enter(Class, u32),
    /// A step: the top of Free was taken.
    Pop(Class, u16),
    /// A step: Free was empty.
    PopNone(Class),
    /// A step: the free count is now this.
    Count(Class, u32),
    /// A step: the active number was lowered to this.
    Leave(Class, u32),
    /// A step: the flag was raised, which asks for deferred work.
    Raise(Class),
    /// A step: a unit was put on Free.
    Push(Class, u16),
    /// A step: a unit was put on Delayed.
    Delayed(Class, u16),
    /// A step: the length of Extra was seen.
    Look(Class, u32),
    /// A step: a unit was put on Extra.
    Put(Class, u16),
    /// A step: a put on Extra was overtaken.
    Lost(Class),
    /// A step: the length of ExtraDelayed was seen.
    LookDelayed(Class, u32),
    /// A step: a unit was put on ExtraDelayed.
    PutDelayed(Class, u16),
    /// A step: a put on ExtraDelayed was overtaken.
    LostDelayed(Class),
    /// A step: a parcel was taken onto Ready, or there was none.
    Receive(Class, Units),
    /// A step: the free count was read.
    Read(Class, u32),
    /// A step: refill took a unit from Ready.
    Ready(Class, u16),
    /// A step: refill took a unit from Second.
    Second(Class, u16),
    /// A step: units were taken from the stock, with the number wanted.
    Fetch(Class, u32, Units),
    /// A step: all of Extra was taken.
    TakeExtra(Class, Units),
    /// A step: a parcel was sent to a processor.
    Send(Class, u8, Units),
    /// A step: all of ExtraDelayed was moved onto Delayed.
    TakeDelayed(Class, Units),
    /// A step: all of Delayed became First.
    Batch(Class, Units),
    /// A step: a batch took its stamp.
    Stamp(Class, Domain, u32),
    /// A step: the number of a domain was seen.
    Pass(Class, Domain, u32),
    /// A step: all of Ready became Second.
    BeginSecond(Class, Units),
    /// A step: units went back to the stock.
    Return(Class, Units),
    /// A step of the closing: all that a cache holds moved into Second.
    Sweep(Class, Units),
}
