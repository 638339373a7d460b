// The parts of answers that several verbs print.
use printing::Page;
use spec::refusals::Refusal;
use std::fmt;
use std::fmt::Write;

// `refused` and the number.
pub fn put_refused(refusal: Refusal, page: &mut Page) -> fmt::Result {
    write!(page, "refused {}", refusal.number())
}
