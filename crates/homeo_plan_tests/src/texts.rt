//! Reading texts, and those that several tests take.

use homeo_meaning::{Accepted, Purpose};
use std::alloc::Global;
use std::process::Abort;

/// The second write reads what the first one wrote.
pub(crate) const TWICE: &str = "workload 1
sites 2
object x in 0..10 = 5
transaction twice() { write(x = read(x) + 1); write(x = read(x) + 1) }
client a at 0 { twice() }
schedule a
end
";

/// Site 0 has three quarters of each slack.
pub(crate) const WEIGHTED: &str = "workload 2
sites 2
weights 3, 1
object stock in 0..10 = 5
transaction buy(n in 1..3) { s := read(stock); if n <= s then { write(stock = s - n); print(1) } else print(0) }
client a at 0 { buy(1); buy(1); buy(1) }
client b at 1 { buy(1) }
schedule a a b a
end
";

/// Only site 0 writes.
pub(crate) const ONE_WRITER: &str = "workload 2
sites 2
weights 1, 1
object x in 0..10 = 5
transaction show() { print(read(x)) }
transaction raise() { write(x = read(x) + 1) }
client a at 0 { raise(); show(); raise(); show() }
schedule a a a a
end
";

/// What is asked is whether there is room after the write. There is none, so both prints are taken; before it there was.
pub(crate) const FILL: &str = "workload 1
sites 2
object x in 0..10 = 9
transaction fill() { write(x = read(x) + 1); s := read(x); if s <= 9 then write(x = s + 1) else { print(s); print(10) } }
client a at 0 { fill() }
schedule a
end
";

/// Reads a text that is accepted.
pub(crate) fn accepted(rt: &impl Abort, alloc: Global, text: &str) -> Accepted {
    assert!(rt; text.len() <= 1_048_576);
    homeo_accept::accepted(alloc, text.as_bytes(), Purpose::Steps).expect(rt, "an accepted text")
}
