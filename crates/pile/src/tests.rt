// The layers on the example plan: what they answer and refuse, and whole piles held against a list that is worked out plainly.
use crate::over;
use allowance::{Allowance, SettingRefusal};
use image::Image;
use lock::{Lock, LockRefusal, Lockable};
use rulebook::{Answer, Key, RuleBook, RuleHead};
use std::alloc::{AllocError, Global};
use std::test::Fail;

// P = 2, G = 3, and four rules. The tests of `image` have the same plan: what stands in the tests of one crate cannot be used in those of another.
const PLAN: [u32; 37] = [
    // heading
    0x10040302,
    // rule 0: key 1, mode 0, screen 0, answer (0: 1, 0)
    0x20410000, 0x30000600, 0, 0, 0, 0, 0, 0, 0,
    // rule 1: key 2, mode 0, screen 1, answer (0: none)
    0x20420100, 0x30000000, 0, 0, 0, 0, 0, 0, 0,
    // rule 2: key 3, mode 0, screen 1, answers (1: 2, 1) and (1: 2)
    0x20830100, 0x30040A01, 0x30000901, 0, 0, 0, 0, 0, 0,
    // rule 3: key 4, mode 1, screen 2, answer (0: none)
    0x20440201, 0x30000000, 0, 0, 0, 0, 0, 0, 0,
];

// A rule as a book tells it, with its first three answers.
#[derive(Clone, Copy, PartialEq, Eq, Debug)]
struct Line {
    head: RuleHead,
    answers: [Option<Answer>; 3],
}

// The rules of a book, read by its questions.
fn lines<B: RuleBook>(heap: Global, book: &B) -> Result<Vec<Line>, AllocError> {
    (0..book.rules())
        .filter_map(|k| {
            let head = book.rule(k)?;
            let answers = [0, 1, 2].map(|j| book.answer(k, j));
            Some(Line { head, answers })
        })
        .collect(heap)
}

// The lines without those of a key.
fn without(heap: Global, below: &[Line], key: Key) -> Result<Vec<Line>, AllocError> {
    below
        .iter()
        .copied()
        .filter(|line| line.head.key != key)
        .collect(heap)
}

// The line with its mode, and those of its answers, so many numbers on.
fn moved(line: &Line, here: u8, there: u8) -> Line {
    Line {
        head: RuleHead {
            mode: line.head.mode.wrapping_add(here),
            ..line.head
        },
        answers: line.answers.map(|answer| {
            let answer = answer?;
            Some(Answer {
                mode: answer.mode.wrapping_add(there),
                ..answer
            })
        }),
    }
}

// The lines of a book of two modes in which a key can be pressed so many times.
fn counted(heap: Global, below: &[Line], key: Key, most: u8) -> Result<Vec<Line>, AllocError> {
    let mut all = without(heap, below, key)?;
    for left in 1..=most {
        let here = left.wrapping_mul(2);
        for line in below {
            let there = if line.head.key == key {
                here.wrapping_sub(2)
            } else {
                here
            };
            all.push(moved(line, here, there))?;
        }
    }
    Ok(all)
}

fn plan(words: &[u32]) -> Image<'_> {
    let mut image = Image::new();
    let _ = image.load(words);
    image
}

// What a pile over the example plan answers to a setting, a refusal by the number that users are told, and how many modes and rules it has then.
fn set(heap: Global, key: Key, most: u8) -> Result<(Result<u8, u8>, u8, usize), AllocError> {
    let mut pile = over(heap, plan(&PLAN))?;
    let answer = pile.set(key, most).map_err(|refusal| refusal.number());
    Ok((answer, pile.modes(), pile.rules()))
}

#[test]
fn settings(rt: HostRuntime) -> Result<(), Fail> {
    let cases = [
        (3, 1, (Ok(4), 4, 7)),
        (3, 29, (Ok(60), 60, 119)),
        (3, 30, (Err(8), 2, 4)),
        (3, 255, (Err(8), 2, 4)),
        (3, 0, (Ok(2), 2, 3)),
        (63, 1, (Ok(4), 4, 8)),
        (64, 1, (Err(5), 2, 4)),
        (64, 30, (Err(5), 2, 4)),
    ];
    for (key, most, said) in cases {
        assert_eq!(rt; set(rt.alloc(), key, most)?, said);
    }
    Ok(())
}

#[test]
fn a_setting_replaces_another(rt: HostRuntime) -> Result<(), Fail> {
    let mut pile = over(rt.alloc(), plan(&PLAN))?;
    assert_eq!(rt; pile.rules(), 4);
    assert_eq!(rt; pile.set(3, 1), Ok(4));
    assert_eq!(rt; pile.set(3, 30), Err(SettingRefusal::DoesNotFit));
    assert_eq!(rt; pile.rules(), 7);
    assert_eq!(rt; pile.set(1, 0), Ok(2));
    assert_eq!(rt; pile.lock_below(3), Ok(1));
    assert_eq!(rt; pile.rules(), 2);
    Ok(())
}

// A struct over any book: neither layer asks anything of the book to be named.
#[derive(Drop)]
struct Held<B> {
    pile: Allowance<Lock<B>>,
}

#[test]
fn a_pile_over_any_book_is_held(rt: HostRuntime) -> Result<(), Fail> {
    let mut held = Held {
        pile: over(rt.alloc(), plan(&PLAN))?,
    };
    assert_eq!(rt; held.pile.set(3, 1), Ok(4));
    assert_eq!(rt; held.pile.rules(), 7);
    Ok(())
}

#[test]
fn levels_of_a_pile(rt: HostRuntime) -> Result<(), Fail> {
    let heap = rt.alloc();
    let all = lines(heap, &plan(&PLAN))?;
    let mut pile = over(heap, plan(&PLAN))?;
    assert_eq!(rt; pile.set(3, 255), Err(SettingRefusal::DoesNotFit));
    assert_eq!(rt; lines(heap, &pile)?, all);
    assert_eq!(rt; pile.set(3, 2), Ok(6));
    assert_eq!(rt; lines(heap, &pile)?, counted(heap, &all, 3, 2)?);
    assert_eq!(rt; pile.lock_below(2), Ok(1));
    assert_eq!(rt; pile.set(64, 1), Err(SettingRefusal::NoSuchKey));
    assert_eq!(rt; pile.lock_below(2), Err(LockRefusal::AlreadyLocked));
    let below = without(heap, &all, 2)?;
    assert_eq!(rt; lines(heap, &pile)?, counted(heap, &below, 3, 2)?);
    Ok(())
}

#[test]
fn key_3_locked(rt: HostRuntime) -> Result<(), Fail> {
    let mut pile = over(rt.alloc(), plan(&PLAN))?;
    assert_eq!(rt; pile.lock_below(3), Ok(1));
    assert_eq!(rt; pile.rules(), 3);
    assert_eq!(rt; pile.lock_below(3), Err(LockRefusal::AlreadyLocked));
    assert_eq!(rt; pile.rules(), 3);
    Ok(())
}

#[test]
fn sixteen_keys(rt: HostRuntime) -> Result<(), Fail> {
    let mut lock = Lock::new(rt.alloc(), plan(&PLAN))?;
    assert_eq!(rt; lock.lock(64), Err(LockRefusal::NoSuchKey));
    for key in 48..64 {
        assert_eq!(rt; lock.lock(key), Ok(key as usize - 47));
        assert_eq!(rt; lock.lock(key), Err(LockRefusal::AlreadyLocked));
    }
    assert_eq!(rt; lock.lock(3), Err(LockRefusal::Full));
    assert_eq!(rt; lock.lock(48), Err(LockRefusal::AlreadyLocked));
    assert_eq!(rt; lock.lock(255), Err(LockRefusal::NoSuchKey));
    assert_eq!(rt; lock.rules(), 4);
    Ok(())
}

#[test]
fn a_lock_over_an_allowance_over_a_lock(rt: HostRuntime) -> Result<(), Fail> {
    let heap = rt.alloc();
    let all = lines(heap, &plan(&PLAN))?;
    let mut below = over(heap, plan(&PLAN))?;
    assert_eq!(rt; below.set(3, 2), Ok(6));
    assert_eq!(rt; below.lock_below(2), Ok(1));
    let mut pile = Lock::new(heap, below)?;
    let inner = without(heap, &all, 2)?;
    let middle = counted(heap, &inner, 3, 2)?;
    assert_eq!(rt; lines(heap, &pile)?, middle);
    assert_eq!(rt; pile.lock(4), Ok(1));
    let top = without(heap, &counted(heap, &inner, 3, 2)?, 4)?;
    assert_eq!(rt; lines(heap, &pile)?, top);
    assert_eq!(rt; pile.lock_below(1), Ok(2));
    let narrower = without(heap, &inner, 1)?;
    let last = without(heap, &counted(heap, &narrower, 3, 2)?, 4)?;
    assert_eq!(rt; pile.rule(last.len()), None);
    assert_eq!(rt; lines(heap, &pile)?, last);
    Ok(())
}
