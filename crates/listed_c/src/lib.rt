// The marking search for callers in C or Rust.
#![tactic(auto)]

ghost use Rattle.listed.specs.Lists.{MarksByNumber};

// Marks what steps reach: 0, or the number of the refusal, since no `Result` crosses to C.
#[unsafe(no_mangle)]
pub extern "C" fn mark_listed(memory: &mut [u32], places: u32, targets: u32) -> u32
    ensures { MarksByNumber places targets memory.old memory.new result }
{
    match listed::mark_listed(memory, places, targets) {
        Ok(()) => 0,
        Err(refusal) => refusal.number() as u32,
    }
}
