// Step by step over a slice: a caller keeps the position and the level.
ghost use Rattle.std.specs.Prelude.{◌≡◌};
ghost use Rattle.spec.specs.Pull.{opened, step_at, enter_at};
ghost use Rattle.calf.specs.Told.{asked_by, step_number, step_answer};

// A slice is opened at position 0 and level 0, unless it is too long.
#[unsafe(no_mangle)]
pub extern "C" fn calf_pull_open(s: &[u8]) -> u32
    ensures { result ≡ (opened s.now).number }
{
    calf::pulling::calf_pull_open(s)
}

// A step at a position and a level.
#[unsafe(no_mangle)]
pub extern "C" fn calf_pull_step(
    s: &[u8],
    at: usize,
    level: u32,
    kind: u32,
    tag: u32,
    answer: &mut [u64; 4],
) -> u32
    ensures { (result ≡ step_number (step_at s.now at level (asked_by kind tag)))
        × (answer.new ≡ step_answer (step_at s.now at level (asked_by kind tag))) }
{
    calf::pulling::calf_pull_step(s, at, level, kind, tag, answer)
}

// The content of a message at a position: a caller goes on in it one level up, or after it.
#[unsafe(no_mangle)]
pub extern "C" fn calf_pull_enter(s: &[u8], at: usize, level: u32, answer: &mut [u64; 4]) -> u32
    ensures { (result ≡ step_number (enter_at s.now at level)) × (answer.new ≡ step_answer (enter_at s.now at level)) }
{
    calf::pulling::calf_pull_enter(s, at, level, answer)
}
