// The ring along a list's leads, and the place that keeps it.
ghost use Rattle.std.specs.Prelude.{◌≡◌, ◌<◌};
ghost use Rattle.rules.specs.Lists as Lists;
ghost use Rattle.lists.specs.Rings as Rings;

use rules::{Entries, Ring};
use values::bits::wide;

// The ring with one more process at its end.
fn extended(r: Ring, p: u8) -> Ring
    requires { r.count < 16 }
    ensures { result ≡ Rings.extended r p }
{
    let mut processes = r.processes;
    processes[wide(r.count)] = p;
    Ring {
        processes,
        count: r.count + 1,
    }
}

// The ring from the starter along the leads to the entry at the place, which falls at each call.
pub fn along_leads(l: Entries, at: usize) -> Ring
    requires { at < 16 }
    ensures { result ≡ Lists.ring_of (Lists.along_leads at l at) }
{
    let lead = wide(l.leads[at]);
    let led = if lead < at {
        along_leads(l, lead)
    } else {
        Ring::default()
    };
    extended(led, l.who[at])
}

// A filled place is kept.
pub fn keeping(old: Ring, new: Ring) -> Ring
    ensures { result ≡ Lists.keeping old new }
{
    if old.count == 0 { new } else { old }
}
