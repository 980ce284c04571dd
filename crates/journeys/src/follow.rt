// The deliveries of a follow, each told with a write of its own: a drain is one delivery of the lowest number after another.
use desk::Desk;
use program::{Errors, Told};
use text::Page;
use values::bits::lowest;

// The words so far, in one write; the page is empty after it.
pub fn print(rt: &(impl Print + Errors), out: &mut Page) -> Result<(), Told> {
    let printed = program::write(rt, out.as_slice());
    out.clear();
    printed
}

// One delivery, and the ring that it recorded.
fn delivery(out: &mut Page, before: &Desk, after: &Desk) {
    let old = &before.board;
    crate::tell(out, before, after, lowest(old.occupied));
    rings::recorded_since(out, b"      ring recorded: ", old, &after.board);
}

// So many deliveries, behind what stands on the page already. A page that is full is printed as far as it goes.
pub fn tell(
    rt: &(impl Print + Errors),
    out: &mut Page,
    first: &Desk,
    made: usize,
) -> Result<(), Told> {
    let mut desk = *first;
    for _ in 0..made {
        let acted = desk::act(desk, typed::read(b"drain 1"));
        delivery(out, &desk, &acted.desk);
        print(rt, out)?;
        desk = acted.desk;
    }
    Ok(())
}
