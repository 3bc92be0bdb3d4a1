//! The calls of the types that all crates share, on values made here.

use crate::same::{same, same_items};
use homeo_syntax::{LCommand, LCond, LExpr, LTest, List, Numbers, SplitName, Text};

#[test]
fn a_list_keeps_its_items_and_its_spare(rt: HostRuntime) {
    let mut list: Numbers = List::new(rt.alloc());
    same(&rt, &list.spare(), &0);
    list.push(4).expect(&rt, "memory");
    list.reserve(2).expect(&rt, "memory");
    same(&rt, &list.spare(), &2);
    list.push(-5).expect(&rt, "memory");
    same(&rt, &list.spare(), &1);
    same_items(&rt, list.as_slice(), [4, -5].as_slice());
    same_items(&rt, list.into_vec().as_slice(), [4, -5].as_slice());
}

#[test]
fn a_text_is_copied(rt: HostRuntime) {
    let text = Text::of(rt.alloc(), "stock").expect(&rt, "memory");
    let copy = text.copy(rt.alloc()).expect(&rt, "memory");
    drop(text);
    assert_eq!(rt; copy.as_str(), "stock");
}

#[test]
fn a_form_is_copied(rt: HostRuntime) {
    let alloc = rt.alloc();
    let mut tests = List::new(alloc);
    tests.push(LTest::True).expect(&rt, "memory");
    let write = LCommand::Write {
        target: SplitName::Whole(2),
        value: LExpr::Literal(1),
    };
    let form = LCommand::If {
        test: LCond { tests },
        yes: Box::new(alloc, LCommand::Skip).expect(&rt, "memory"),
        no: Box::new(alloc, write).expect(&rt, "memory"),
    };
    let copy = form.copy(alloc).expect(&rt, "memory");
    drop(form);
    match copy {
        LCommand::If { test, yes, no } => {
            drop(test);
            drop(yes);
            assert!(rt;
                matches!(
                    *no,
                    LCommand::Write {
                        target: SplitName::Whole(2),
                        ..
                    }
                )
            );
            drop(no);
        }
        _ => panic!(rt; "an if"),
    }
}
