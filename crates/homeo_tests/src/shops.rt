//! Texts of two clients that buy from one stock, and reading and compiling texts.

use homeo_build::Compiled;
use homeo_build::compile::compile;
use homeo_meaning::{Accepted, Purpose};
use std::alloc::Global;
use std::process::Abort;
use std::sync::Arc;

/// A stock of five, of which each of two sites may sell two by itself.
const STOCK: &str = "workload 1
sites 2
object stock in 0..10 = 5
transaction buy(n in 1..3) { s := read(stock); if n <= s then { write(stock = s - n); print(1) } else print(0) }
";

/// Each client buys three, at a site of its own.
pub(crate) const THREE_EACH: &str =
    "client a at 0 { buy(1); buy(1); buy(1) }\nclient b at 1 { buy(1); buy(1); buy(1) }\n";

/// The second client buys two.
pub(crate) const THREE_AND_TWO: &str =
    "client a at 0 { buy(1); buy(1); buy(1) }\nclient b at 1 { buy(1); buy(1) }\n";

/// Each client buys one, at one site.
pub(crate) const ONE_SITE: &str = "client a at 0 { buy(1) }\nclient b at 0 { buy(1) }\n";

/// The second client buys one.
pub(crate) const THREE_AND_ONE: &str =
    "client a at 0 { buy(1); buy(1); buy(1) }\nclient b at 1 { buy(1) }\n";

/// The same with a schedule.
pub(crate) const IN_ORDER: &str =
    "client a at 0 { buy(1); buy(1); buy(1) }\nclient b at 1 { buy(1) }\nschedule a a b a\n";

/// The same with a schedule that leaves a call out.
pub(crate) const SHORT_ORDER: &str =
    "client a at 0 { buy(1); buy(1); buy(1) }\nclient b at 1 { buy(1) }\nschedule a a b\n";

/// The text with these clients.
pub(crate) fn shop(rt: &impl Abort, alloc: Global, clients: &str) -> String {
    let mut text = String::from_str(alloc, STOCK).expect(rt, "memory");
    text.push_str(clients).expect(rt, "memory");
    text.push_str("end\n").expect(rt, "memory");
    text
}

/// Reads a text that is accepted.
pub(crate) fn accepted(rt: &impl Abort, alloc: Global, text: &str) -> Accepted {
    assert!(rt; text.len() <= 1_048_576);
    homeo_accept::accepted(alloc, text.as_bytes(), Purpose::Run).expect(rt, "an accepted text")
}

/// Reads the text with these clients.
pub(crate) fn accepted_shop(rt: &impl Abort, alloc: Global, clients: &str) -> Accepted {
    let text = shop(rt, alloc, clients);
    accepted(rt, alloc, text.as_str())
}

/// Reads a text that is accepted, and compiles it.
pub(crate) fn compiled(rt: &impl Abort, alloc: Global, text: &str) -> Arc<Compiled> {
    let w = accepted(rt, alloc, text);
    let c = compile(alloc, w).expect(rt, "memory");
    Arc::new(alloc, c).expect(rt, "memory")
}
