// Step by step over a slice: a caller keeps the position and the level.
ghost use Rattle.std.specs.Prelude.{◌≡◌};
ghost use Rattle.spec.specs.Pull.{opened, step_at, enter_at};
ghost use Rattle.pull.specs.Told as pulling;
ghost use Rattle.calf.specs.Told.{asked_by, step_number, step_answer};

use pull::step::{Ask, Moved, Said};
use spec::kinds32;
use spec::refusals::Refusal;

// No schema has a group: its number asks for a skip.
const SKIP: u32 = kinds32::GROUP;

// What a step says, by number, as the C interface has it: the end, a number, the bounds of a content, the place of a refusal.
const END: u64 = 0;

const NUMBER: u64 = 1;

const CONTENT: u64 = 2;

const REFUSED: u64 = 3;

// A slice is opened at position 0 and level 0, unless it is too long.
pub fn calf_pull_open(s: &[u8]) -> u32
    ensures { result ≡ (opened s.now).number }
{
    pull::reader::open(s).refused.map_or(0, Refusal::number)
}

// What a kind asks for: its value. `SKIP` asks that the field after `tag` is skipped; 0, and all that is no kind with a value, for the tag as it stands.
// No `TryFrom`: every number asks for something, and a skip takes the tag too.
#[tactic(auto, unfolding(crate::specs::Told::asked_by))]
fn asked(kind: u32, tag: u32) -> Ask
    ensures { pulling.asked result ≡ asked_by kind tag }
{
    match kind {
        kinds32::DOUBLE => Ask::Double,
        kinds32::FLOAT => Ask::Float,
        kinds32::INT64 => Ask::Int64,
        kinds32::UINT64 => Ask::Uint64,
        kinds32::INT32 => Ask::Int32,
        kinds32::FIXED64 => Ask::Fixed64,
        kinds32::FIXED32 => Ask::Fixed32,
        kinds32::BOOL => Ask::Bool,
        kinds32::STRING => Ask::String,
        SKIP => Ask::Skip(tag),
        kinds32::BYTES => Ask::Bytes,
        kinds32::UINT32 => Ask::Uint32,
        kinds32::ENUM => Ask::Enum,
        kinds32::SFIXED32 => Ask::Sfixed32,
        kinds32::SFIXED64 => Ask::Sfixed64,
        kinds32::SINT32 => Ask::Sint32,
        kinds32::SINT64 => Ask::Sint64,
        _ => Ask::RawTag,
    }
}

// What a step says, in numbers: which of the four, the one or two numbers that go with it, and the position then.
fn stepped(m: Moved, answer: &mut [u64; 4]) -> u32
    ensures { (result ≡ step_number (pulling.as_moved m)) × (answer.new ≡ step_answer (pulling.as_moved m)) }
{
    let at = m.at as u64;
    let said = match m.said {
        Ok(said) => said,
        Err(refused) => {
            *answer = [REFUSED, refused.place as u64, 0, at];
            return refused.refusal.number();
        }
    };
    *answer = match said {
        Said::End => [END, 0, 0, at],
        Said::Number(v) => [NUMBER, v, 0, at],
        Said::Content { start, end } => [CONTENT, start as u64, end as u64, at],
    };
    0
}

// A step at a position and a level.
pub fn calf_pull_step(
    s: &[u8],
    at: usize,
    level: u32,
    kind: u32,
    tag: u32,
    answer: &mut [u64; 4],
) -> u32
    ensures { (result ≡ step_number (step_at s.now at level (asked_by kind tag)))
        × (answer.new ≡ step_answer (step_at s.now at level (asked_by kind tag))) }
{
    stepped(pull::step::step_at(s, at, level, asked(kind, tag)), answer)
}

// The content of a message at a position: a caller goes on in it one level up, or after it.
pub fn calf_pull_enter(s: &[u8], at: usize, level: u32, answer: &mut [u64; 4]) -> u32
    ensures { (result ≡ step_number (enter_at s.now at level)) × (answer.new ≡ step_answer (enter_at s.now at level)) }
{
    stepped(pull::step::enter_at(s, at, level), answer)
}
