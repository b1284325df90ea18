// Each refusal of a load at its edge, and the questions to a loaded plan.
use crate::{Image, split};
use rulebook::{Answer, RuleBook, RuleHead, Screens};
use std::alloc::{AllocError, Global};
use std::test::Fail;

// P = 2, G = 3, and four rules. The tests of `pile` have the same plan: what stands in the tests of one crate cannot be used in those of another.
const PLAN: [u32; 37] = [
    // heading
    0x10040302,
    // rule 0: key 1, mode 0, screen 0, answer (0: 1, 0)
    0x20410000, 0x30000600, 0, 0, 0, 0, 0, 0, 0,
    // rule 1: key 2, mode 0, screen 1, answer (0: none)
    0x20420100, 0x30000000, 0, 0, 0, 0, 0, 0, 0,
    // rule 2: key 3, mode 0, screen 1, answers (1: 2, 1) and (1: 2)
    0x20830100, 0x30040A01, 0x30000901, 0, 0, 0, 0, 0, 0,
    // rule 3: key 4, mode 1, screen 2, answer (0: none)
    0x20440201, 0x30000000, 0, 0, 0, 0, 0, 0, 0,
];

// The number of rules of a plan, or the number and the place of its refusal, since that is what users are told of it.
fn loaded(words: &[u32]) -> Result<usize, (u8, usize)> {
    Image::new()
        .load(words)
        .map_err(|refusal| (refusal.number(), refusal.place()))
}

// A plan with P = 2, G = 3 and one rule, with these two words for the rule and its first answer.
fn one_rule(rule: u32, answer: u32) -> [u32; 10] {
    [0x1001_0302, rule, answer, 0, 0, 0, 0, 0, 0, 0]
}

// The heading of a plan with so many rules, and for each the rule of key 0 with the answer (0: none).
fn long_plan(heap: Global, heading: u32, rules: usize) -> Result<Vec<u32>, AllocError> {
    let mut words = Vec::new(heap);
    words.push(heading)?;
    for _ in 0..rules {
        words.extend_from_slice(&[0x2040_0000, 0x3000_0000, 0, 0, 0, 0, 0, 0, 0])?;
    }
    Ok(words)
}

#[test]
fn headings(rt: HostRuntime) {
    let good = [0x1000_0101, 0x1000_013C, 0x1000_8001, 0x1000_803C];
    for word in good {
        assert_eq!(rt; loaded(&[word]), Ok(0));
    }
    let bad = [
        0x1000_0100, // P = 0
        0x1000_013D, // P = 61
        0x1000_0001, // G = 0
        0x1000_8101, // G = 129
        0x0000_0101, // kind 0
        0x2000_0101, // kind 2
        0x1401_0101, // 1,025 rules
        0x1FFF_0101, // 4,095 rules
    ];
    for word in bad {
        assert_eq!(rt; loaded(&[word]), Err((2, 0)));
    }
}

#[test]
fn lengths(rt: HostRuntime) {
    assert_eq!(rt; loaded(&[]), Err((1, 0)));
    assert_eq!(rt; loaded(&PLAN), Ok(4));
    assert_eq!(rt; loaded(&PLAN[0..36]), Err((1, 36)));
    assert_eq!(rt; loaded(&[0x1000_0101, 0]), Err((1, 2)));
    assert_eq!(rt; loaded(&[0x1400_0101]), Err((1, 1)));
}

#[test]
fn most_rules_fit(rt: HostRuntime) -> Result<(), Fail> {
    let most = long_plan(rt.alloc(), 0x1400_0101, 1024)?;
    assert_eq!(rt; loaded(&most), Ok(1024));
    let more = long_plan(rt.alloc(), 0x1401_0101, 1025)?;
    assert_eq!(rt; loaded(&more), Err((2, 0)));
    Ok(())
}

#[test]
fn rule_words(rt: HostRuntime) {
    let good = [0x2040_0000, 0x207F_0201];
    for word in good {
        assert_eq!(rt; loaded(&one_rule(word, 0x3000_0000)), Ok(1));
    }
    let bad = [
        0x0040_0000, // kind 0
        0x1040_0000, // kind 1
        0x3040_0000, // kind 3
        0x2440_0000, // bit 26
        0x2840_0000, // bit 27
        0x2040_0002, // mode P
        0x2040_0300, // screen G
        0x2000_0000, // no answer
        0x2240_0000, // nine answers
    ];
    for word in bad {
        assert_eq!(rt; loaded(&one_rule(word, 0x3000_0000)), Err((3, 1)));
    }
}

#[test]
fn answer_words(rt: HostRuntime) {
    let good = [0x3000_0001, 0x3000_0901, 0x3008_0A00];
    for word in good {
        assert_eq!(rt; loaded(&one_rule(0x2040_0000, word)), Ok(1));
    }
    let bad = [
        0x0000_0000, // kind 0
        0x2000_0000, // kind 2
        0x3400_0000, // bit 26
        0x3800_0000, // bit 27
        0x3000_0002, // mode P
        0x3000_0300, // three screens
        0x3000_0400, // no screen, yet a first
        0x3004_0000, // no screen, yet a second
        0x3000_0D00, // one screen, G
        0x3004_0900, // one screen, yet a second
        0x3000_0E00, // first of two is G
        0x300C_0200, // second of two is G
    ];
    for word in bad {
        assert_eq!(rt; loaded(&one_rule(0x2040_0000, word)), Err((4, 2)));
    }
}

#[test]
fn unused_answer_words(rt: HostRuntime) {
    for place in 3..10 {
        let mut words = one_rule(0x2040_0000, 0x3000_0000);
        words[place] = 0x3000_0000;
        assert_eq!(rt; loaded(&words), Err((4, place)));
    }
}

#[test]
fn a_refused_load_changes_nothing(rt: HostRuntime) {
    let mut image = Image::new();
    assert_eq!(rt; image.modes(), 1);
    assert_eq!(rt; image.screens(), 1);
    assert_eq!(rt; image.rules(), 0);
    assert!(rt; image.load(&PLAN).is_ok());
    assert!(rt; image.load(&[0x1000_0100]).is_err());
    assert_eq!(rt; image.modes(), 2);
    assert_eq!(rt; image.screens(), 3);
    assert_eq!(rt; image.rules(), 4);
}

#[test]
fn questions(rt: HostRuntime) {
    let mut image = Image::new();
    assert!(rt; image.load(&PLAN).is_ok());
    assert_eq!(rt;
        image.rule(2),
        Some(RuleHead {
            key: 3,
            mode: 0,
            screen: 1,
            answers: 2,
        })
    );
    assert_eq!(rt; image.rule(4), None);
    assert_eq!(rt; image.rule(usize::MAX), None);
    assert_eq!(rt;
        image.answer(2, 0),
        Some(Answer {
            mode: 1,
            screens: Screens::Two(2, 1),
        })
    );
    assert_eq!(rt;
        image.answer(2, 1),
        Some(Answer {
            mode: 1,
            screens: Screens::One(2),
        })
    );
    assert_eq!(rt;
        image.answer(3, 0),
        Some(Answer {
            mode: 0,
            screens: Screens::Gone,
        })
    );
    assert_eq!(rt; image.answer(2, 2), None);
    assert_eq!(rt; image.answer(4, 0), None);
    assert_eq!(rt; image.answer(usize::MAX, usize::MAX), None);
}

#[test]
fn the_jobs_follow_the_image(rt: HostRuntime) {
    let words = [0x1000_0302, 5, 6];
    let (image, jobs) = split(&words);
    assert_eq!(rt; image, [0x1000_0302].as_slice());
    assert_eq!(rt; jobs, [5, 6].as_slice());
}

#[test]
fn a_short_image_leaves_no_jobs(rt: HostRuntime) {
    let words = [0x1001_0302, 5];
    let (image, jobs) = split(&words);
    assert_eq!(rt; image, [0x1001_0302, 5].as_slice());
    assert!(rt; jobs.is_empty());
}
