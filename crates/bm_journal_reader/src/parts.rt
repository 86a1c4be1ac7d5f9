//! What single words of a line say.

ghost use Rattle.std.specs.Prelude.{◌≡◌, ◌^◌, ◌==◌, find, option_map};
ghost use Rattle.bm_class.specs.Sizes.{size_of_class};
ghost use Rattle.bm_journal_reader.specs.Pieces.{texts};
ghost use Rattle.bm_law_text.specs.Entries.{past_word};
ghost use Rattle.bm_law_text.specs.Parts.{number, name, class, domain, object_id, tag};

use bm_class::Class;
use bm_journal::{Domain, Level, ObjId, Tag};
use bm_word::{Name, read_number};

/// A number of 8 bits.
#[tactic(auto, unfolding(bm_law_text::specs::Parts::number))]
pub fn byte(word: &[u8]) -> Option<u8>
    ensures { result ≡ number (2 ^ 8) word.now }
{
    u8::try_from(read_number(word)?).ok()
}

/// A number of 16 bits.
#[tactic(auto, unfolding(bm_law_text::specs::Parts::number))]
pub fn short(word: &[u8]) -> Option<u16>
    ensures { result ≡ number (2 ^ 16) word.now }
{
    u16::try_from(read_number(word)?).ok()
}

/// A number of 32 bits.
#[tactic(auto, unfolding(bm_law_text::specs::Parts::number))]
pub fn number(word: &[u8]) -> Option<u32>
    ensures { result ≡ number (2 ^ 32) word.now }
{
    let number = read_number(word)?;
    if number < 1 << 32 {
        Some(number as u32)
    } else {
        None
    }
}

/// A number of 64 bits.
#[tactic(auto, unfolding(bm_law_text::specs::Parts::number))]
pub fn long(word: &[u8]) -> Option<u64>
    ensures { result ≡ number (2 ^ 64) word.now }
{
    read_number(word)
}

/// A level.
#[tactic(auto, unfolding(bm_law_text::specs::Parts::number))]
pub fn level(word: &[u8]) -> Option<Level>
    ensures { result ≡ number 4 word.now }
{
    Level::new(byte(word)?)
}

/// A name.
#[tactic(auto, unfolding(bm_law_text::specs::Parts::name))]
pub fn name(word: &[u8]) -> Option<Name>
    ensures { result ≡ name word.now }
{
    Name::new(word)
}

/// A domain.
#[tactic(auto, unfolding(bm_law_text::specs::Parts::domain))]
pub fn domain(word: &[u8]) -> Option<Domain>
    ensures { result ≡ domain word.now }
{
    if word == b"plain".as_slice() {
        Some(Domain::Plain)
    } else if word == b"tracing".as_slice() {
        Some(Domain::Tracing)
    } else {
        None
    }
}

/// A class, by the size of its units.
#[tactic(auto, unfolding(bm_law_text::specs::Parts::class))]
pub fn class(word: &[u8]) -> Option<Class>
    ensures { result ≡ class word.now }
{
    let size = read_number(word)?;
    of_size(&Class::all(), size)
}

// The first of some classes whose units have this size.
fn of_size(classes: &[Class], size: u64) -> Option<Class>
    ensures { result ≡ find (λ c. size_of_class c == size) classes.now }
{
    classes
        .iter()
        .copied()
        .find(|class| class.size() as u64 == size)
}

/// A unit and a life.
pub fn object_id(unit: &[u8], life: &[u8]) -> Option<ObjId>
    ensures { result ≡ object_id unit.now life.now }
{
    let unit = short(unit)?;
    let life = number(life)?;
    Some(ObjId { unit, life })
}

/// A call's processor and serial number.
pub fn tag(processor: &[u8], serial: &[u8]) -> Option<Tag>
    ensures { result ≡ tag processor.now serial.now }
{
    let processor = byte(processor)?;
    let serial = number(serial)?;
    Some(Tag { processor, serial })
}

/// The words after this one.
pub fn past_word<'a, 'b>(text: &[u8], words: &'a [&'b [u8]]) -> Option<&'a [&'b [u8]]>
    ensures { option_map (λ rest. texts rest.now) result ≡ past_word text.now (texts words.now) }
{
    let [word, rest @ ..] = words else {
        return None;
    };
    if *word == text { Some(rest) } else { None }
}
