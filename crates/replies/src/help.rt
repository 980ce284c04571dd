// The help, on one screen, and how to begin.
use std::io::Write;
use text::Page;

pub fn tell(out: &mut Page) {
    let _full = writeln!(
        out,
        "Beside each command stands its short form.
open N P O         o   a board of N nodes (1 to 8), P processes (1 to 16) and
                       O objects (1 to 16); pK and oK live on node K modulo N
open N P O HOMES   o   the same; then the home node of each process and object
request P O MODE   r   process P asks for object O; MODE is shared or s or 0,
                       exclusive or x or 1
release P O        re  process P gives object O back
deliver M          d   message M arrives
drain              dr  the lowest message arrives, again and again, until none
                       is in flight
drain BUDGET       dr  the same, with at most BUDGET deliveries
follow             f   as drain, and with BUDGET too; each delivery is told, so
                       that the journey of a list is seen
show               s   what each node can know, and what only the whole board
                       shows
show NODE          s   what one node can know
messages           m   the messages in flight
messages NODE      m   those on their way to one node
waits              w   who waits for whom, why, and at which node; and rings
                       that exist, which only the whole board shows
waits NODE         w   who waits at one node, without the rings
rings              ri  the recorded rings, and rings that exist; in a ring each
                       waits for the next, and the last for the first. Every
                       process that stands in a ring is in one that is told,
                       though not all rings are, here and under waits
undo               u   takes the last change back; the last 64 are kept
help, ?            h   this
quit, exit         q   the end
Numbers are decimal, from 0: request 0 1 x is p0 asking for o1, exclusive, and
so is request p0 o1 x. What stands after # on a line is a comment.
Load is messages in flight, plus processes standing in lines, plus requests in
flight (so a request counts twice). It never passes 64: a request is refused
where it is above 62, and a release where it is above 63 (answer 10)."
    );
}
