//! Right and wrong words.

use crate::same::same;
use homeo_syntax::{List, Text};
use homeo_words::Command;
use std::alloc::Global;
use std::process::Abort;

fn command_of(rt: &impl Abort, alloc: Global, words: &[&str]) -> Option<Command> {
    let mut list = List::new(alloc);
    for word in words {
        let word = Text::of(alloc, word).expect(rt, "memory");
        list.push(word).expect(rt, "memory");
    }
    Command::of(alloc, &list).expect(rt, "memory")
}

/// Words, and the command that they are.
const COMMANDS: [(&[&str], Command); 9] = [
    (&["steps"], Command::Steps),
    (&["run"], Command::Run),
    (&["tables"], Command::Tables),
    (&["treaty"], Command::Treaty),
    (&["serve"], Command::Serve),
    (&["forecast"], Command::Forecast),
    (&["certify"], Command::Certify),
    (&["verify"], Command::Verify),
    (&["wire", "07"], Command::Wire { number: 7 }),
];

/// Words that are no command: none, others, too few, too many, and numbers out of their range or not of digits alone.
const OTHERS: [&[&str]; 18] = [
    &[],
    &["help"],
    &["step"],
    &["steps", "steps"],
    &["--help"],
    &["load", "-1", "1"],
    &["load", "1"],
    &["load", "1", "1", "1"],
    &["certify", "steps"],
    &["wire"],
    &["wire", "1", "1"],
    &["load", "18446744073709551616", "1"],
    &["load", "000000000000000000001", "1"],
    &["load", "", "1"],
    &["load", "+1", "1"],
    &["load", "1", "0"],
    &["load", "1", "20001"],
    &["wire", "18446744073709551616"],
];

#[test]
fn each_command_has_its_words(rt: HostRuntime) {
    for (words, wanted) in COMMANDS {
        let command = command_of(&rt, rt.alloc(), words);
        same(&rt, &command, &Some(wanted));
    }
}

#[test]
fn the_largest_numbers_are_taken_with_zeros_in_front(rt: HostRuntime) {
    let words = ["load", "18446744073709551615", "00000000000000020000"];
    let wanted = Command::Load {
        number: 18446744073709551615,
        calls: 20_000,
    };
    let command = command_of(&rt, rt.alloc(), &words);
    same(&rt, &command, &Some(wanted));
}

#[test]
fn other_words_are_no_command(rt: HostRuntime) {
    for words in OTHERS {
        let command = command_of(&rt, rt.alloc(), words);
        same(&rt, &command, &None);
    }
}
