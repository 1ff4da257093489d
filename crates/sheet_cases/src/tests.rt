//! What reading answers, and what the pile does that a sheet makes.
use crate::writing::Writing;
use host::Host;
use message::{Pair, Refusal};
use sheet::{Sheet, SheetRefusal};
use std::alloc::AllocError;
use std::process::Abort;
use std::test::Fail;

// Refused with that number, at that word: the number is what the documents promise and a maker sees.
fn is_refusal(
    rt: &impl Abort,
    answer: Result<Sheet, SheetRefusal>,
    number: u8,
    word: usize,
    case: &str,
) {
    let told = answer.err().map(|e| (e.refusal.number(), e.word));
    assert_eq!(rt; told, Some((number, word)), "{case}");
}

fn refused(rt: &impl Abort, writing: &Writing, number: u8, word: usize, case: &str) {
    is_refusal(rt, writing.read(), number, word, case);
}

fn accepted(rt: &impl Abort, writing: &Writing, case: &str) {
    assert!(rt; writing.read().is_ok(), "{case}");
}

// All that a sheet may hold: 64 rows, 16 members and 16 pairs, in 195 words.
fn full(rt: &impl AllocGlobal) -> Result<Writing, AllocError> {
    let mut writing = Writing::new(rt.alloc())?;
    writing.entries(4, 0, 21)?;
    writing.entries(4, 1, 21)?;
    writing.entries(4, 0x7E, 21)?;
    writing.entries(4, 0x7F, 1)?;
    writing.entries(6, 8, 16)?;
    writing.entries(7, 0x7F, 16)?;
    Ok(writing)
}

#[test]
fn the_longest_sheet(rt: HostRuntime) -> Result<(), Fail> {
    let mut writing = full(&rt)?;
    writing.end()?;
    let sheet = writing.read().expect(&rt, "refused");
    assert_eq!(rt; sheet.rows().len(), 64);
    assert_eq!(rt; sheet.members().len(), 16);
    assert_eq!(rt; sheet.pairs().len(), 16);
    writing.end()?;
    refused(&rt, &writing, 13, 0, "one word more");
    Ok(())
}

fn refused_length(rt: &impl Abort, writing: &Writing, length: usize, case: &str) {
    is_refusal(rt, writing.read_bytes(length), 13, 0, case);
}

#[test]
fn lengths(rt: HostRuntime) -> Result<(), Fail> {
    let mut writing = Writing::new(rt.alloc())?;
    writing.end()?;
    accepted(&rt, &writing, "no entry at all");
    refused_length(&rt, &writing, 0, "no byte");
    refused_length(&rt, &writing, 12, "three words");
    refused_length(&rt, &writing, 15, "a byte less than four words");
    writing.put(0)?;
    refused_length(&rt, &writing, 17, "a byte more than four words");
    writing.change(0, 0);
    refused_length(&rt, &writing, 18, "before a kind out of order");
    let mut long = full(&rt)?;
    long.put(0)?;
    long.put(0)?;
    refused_length(&rt, &long, 785, "a byte more than 196 words");
    refused_length(&rt, &long, 788, "197 words");
    Ok(())
}

#[test]
fn kinds_out_of_order(rt: HostRuntime) -> Result<(), Fail> {
    let mut writing = Writing::new(rt.alloc())?;
    writing.entry(6, 1, 0, 0)?;
    writing.entry(4, 0, 0, 0)?;
    writing.end()?;
    refused(&rt, &writing, 14, 5, "a row after a member");
    writing.change(4, 0x6000_0000);
    refused(&rt, &writing, 14, 4, "no kind 5");
    writing.change(2, 0x4000_0020);
    refused(&rt, &writing, 14, 2, "before a Function Block out of range");
    writing.change(1, 0x3000_0000);
    refused(&rt, &writing, 14, 1, "the second word");
    writing.change(0, 0x2000_0000);
    refused(&rt, &writing, 14, 0, "the first possible word");
    Ok(())
}

#[test]
fn ends_out_of_order(rt: HostRuntime) -> Result<(), Fail> {
    let mut writing = full(&rt)?;
    refused(&rt, &writing, 14, 195, "no end");
    writing.put(0x9000_0000)?;
    refused(&rt, &writing, 14, 195, "the last possible word");
    writing.change(193, 0x8000_00C1);
    refused(&rt, &writing, 14, 194, "words after the end");
    let mut cut = Writing::new(rt.alloc())?;
    cut.put(0x4000_0000)?;
    refused(&rt, &cut, 14, 4, "half an entry");
    Ok(())
}

#[test]
fn fields_out_of_range(rt: HostRuntime) -> Result<(), Fail> {
    let mut writing = full(&rt)?;
    writing.put(0x8000_00C2)?;
    refused(
        &rt,
        &writing,
        15,
        195,
        "a wrong count, the last possible word",
    );
    writing.change(132, 0x5000_0080);
    refused(&rt, &writing, 15, 132, "not 0");
    writing.change(132, 0x5000_0001);
    refused(&rt, &writing, 15, 132, "a member is neither on nor off");
    writing.change(131, 0x6120_0000);
    refused(&rt, &writing, 15, 131, "set 9");
    writing.change(131, 0x6000_0000);
    refused(&rt, &writing, 15, 131, "set 0");
    writing.change(4, 0x5000_0002);
    refused(&rt, &writing, 15, 4, "neither on nor off");
    writing.change(3, 0x4200_0000);
    refused(&rt, &writing, 15, 3, "no address");
    writing.change(2, 0x3000_00A0);
    refused(&rt, &writing, 15, 2, "the first possible word");
    Ok(())
}

#[test]
fn not_rising(rt: HostRuntime) -> Result<(), Fail> {
    let mut twice = Writing::new(rt.alloc())?;
    twice.entry(4, 0, 0, 0)?;
    twice.entry(4, 0, 0, 1)?;
    twice.end()?;
    refused(&rt, &twice, 16, 6, "the first possible word");
    twice.change(6, 0x5000_0002);
    refused(&rt, &twice, 15, 6, "a range before the order");
    let mut falling = Writing::new(rt.alloc())?;
    falling.entry(6, 1, 1, 0)?;
    falling.entry(6, 2, 0, 0)?;
    falling.end()?;
    refused(&rt, &falling, 16, 6, "members rise by ID alone");
    Ok(())
}

#[test]
fn one_too_many(rt: HostRuntime) -> Result<(), Fail> {
    let mut writing = full(&rt)?;
    writing.put(0x7FE0_0000)?;
    refused(
        &rt,
        &writing,
        16,
        195,
        "a 17th pair, the last possible word",
    );
    writing.change(195, 0x7220_0000);
    refused(&rt, &writing, 15, 195, "a range before the limit");
    writing.change(195, 0x4FE0_0000);
    refused(&rt, &writing, 14, 195, "an order before the limit");
    writing.change(131, 0x4FE0_0000);
    refused(&rt, &writing, 16, 131, "a 65th row");
    writing.change(45, 0x4000_0000);
    refused(&rt, &writing, 16, 45, "a 22nd row at its address");
    let mut members = Writing::new(rt.alloc())?;
    members.entries(6, 1, 17)?;
    refused(&rt, &members, 16, 35, "a 17th member");
    Ok(())
}

#[test]
fn collisions(rt: HostRuntime) -> Result<(), Fail> {
    let mut writing = Writing::new(rt.alloc())?;
    writing.entry(4, 0, 0, 1)?;
    writing.entry(4, 0, 1, 1)?;
    writing.entry(6, 1, 0, 0)?;
    writing.entry(6, 1, 1, 0)?;
    writing.end()?;
    refused(&rt, &writing, 17, 5, "the first possible word");
    writing.change(11, 0x8000_0000);
    refused(&rt, &writing, 15, 11, "after all other faults");
    writing.change(11, 0x8000_000B);
    writing.change(9, 0x6040_0000);
    accepted(&rt, &writing, "in two sets");
    writing.change(9, 0x6020_0000);
    writing.change(5, 0x4020_0000);
    accepted(&rt, &writing, "at two addresses");
    writing.change(5, 0x4000_0000);
    writing.change(6, 0x5000_4000);
    accepted(&rt, &writing, "one is off");
    Ok(())
}

#[test]
fn the_last_collision(rt: HostRuntime) -> Result<(), Fail> {
    let mut writing = Writing::new(rt.alloc())?;
    writing.entries(4, 0, 21)?;
    writing.entries(4, 1, 21)?;
    writing.entries(4, 2, 20)?;
    writing.entry(4, 3, 0, 1)?;
    writing.entry(4, 3, 1, 1)?;
    writing.entry(6, 1, 0, 0)?;
    writing.entry(6, 1, 1, 0)?;
    writing.end()?;
    refused(&rt, &writing, 17, 129, "the last possible word");
    Ok(())
}

// Three rows of one set at Channel 1, the second on, and a row at the Group that is held on.
fn organ(rt: &impl AllocGlobal) -> Result<Writing, AllocError> {
    let mut writing = Writing::new(rt.alloc())?;
    writing.entry(4, 0, 2, 0)?;
    writing.entry(4, 0, 3, 1)?;
    writing.entry(4, 0, 4, 0)?;
    writing.entry(4, 0x7E, 5, 1)?;
    writing.entry(6, 1, 2, 0)?;
    writing.entry(6, 1, 3, 0)?;
    writing.entry(6, 1, 4, 0)?;
    writing.entry(7, 0x7E, 5, 0)?;
    writing.end()?;
    Ok(writing)
}

#[test]
fn an_organ(rt: HostRuntime) -> Result<(), Fail> {
    let sheet = organ(&rt)?.read().expect(&rt, "refused");
    assert_eq!(rt; sheet.identity.bytes, [0x7D, 0, 0, 0, 2, 2, 0, 0, 0, 0, 1]);
    assert_eq!(rt; sheet.identity.block, 1);
    let mut pile = sheet.into_pile();
    assert_eq!(rt; pile.rows().len(), 4);
    assert!(rt; !pile.is_fixed());
    assert!(rt;
        pile.puts_off(Pair::new(0, [0, 0, 0, 0, 2]), [0, 0, 0, 0, 3]),
        "of one set"
    );
    assert!(rt; pile.switch(Pair::new(0, [0, 0, 0, 0, 2]), true));
    assert!(rt;
        !pile.switch(Pair::new(0, [0, 0, 0, 0, 3]), false),
        "off by now"
    );
    assert!(rt;
        !pile.switch(Pair::new(0x7E, [0, 0, 0, 0, 5]), false),
        "held"
    );
    assert!(rt; pile.plug(Pair::new(1, [0, 0, 0, 0, 2])));
    Ok(())
}

#[test]
fn a_piano(rt: HostRuntime) -> Result<(), Fail> {
    let mut writing = Writing::new(rt.alloc())?;
    writing.change(1, 0x2020_4000);
    writing.change(2, 0x3000_0080);
    writing.put(0x401F_8000)?;
    writing.put(0x5020_4001)?;
    writing.put(0x4FFF_8001)?;
    writing.put(0x5020_4000)?;
    writing.put(0x701F_8000)?;
    writing.put(0x5020_4000)?;
    writing.put(0x7FFF_8001)?;
    writing.put(0x5020_4000)?;
    writing.put(0x8000_000B)?;
    let sheet = writing.read().expect(&rt, "refused");
    let mut pile = sheet.into_pile();
    assert!(rt;
        !pile.switch(Pair::new(0, [0x7E, 0, 0, 1, 1]), false),
        "held on"
    );
    assert!(rt;
        !pile.switch(Pair::new(0x7F, [0x7E, 0, 1, 1, 1]), true),
        "held off"
    );
    Ok(())
}

// The sentence of a refusal.
fn says(
    rt: &(impl Abort + AllocGlobal),
    refusal: Refusal,
    word: usize,
    sentence: &str,
) -> Result<(), Fail> {
    let refusal = SheetRefusal { refusal, word };
    let text = format!(in rt.alloc(); "{refusal}")?;
    assert!(rt; text.as_str() == sentence, "another sentence");
    Ok(())
}

#[test]
fn sentences(rt: HostRuntime) -> Result<(), Fail> {
    says(
        &rt,
        Refusal::SheetLength,
        0,
        "word 0: a sheet has 16 to 784 bytes, in whole words",
    )?;
    says(
        &rt,
        Refusal::SheetOrder,
        2,
        "word 2: the first three words are of kinds 1, 2 and 3",
    )?;
    says(
        &rt,
        Refusal::FieldOutOfRange,
        2,
        "word 2: Function Block neither 0 to 31 nor 127",
    )?;
    says(
        &rt,
        Refusal::NotRising,
        18,
        "word 18: row, member or held pair not above the one before it",
    )?;
    says(
        &rt,
        Refusal::NotRising,
        45,
        "word 45: one row, member or held pair too many",
    )?;
    says(
        &rt,
        Refusal::SetCollision,
        5,
        "word 5: row on in the same set and at the same address as a row before it",
    )
}
