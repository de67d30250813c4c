use crate::Symbol::{Inner, Terminal};
use crate::{
    Event, Grammar, ParseFault, Parser, Prediction, Production, Refusal, Span, Symbol, parse,
};
use std::alloc::Global;
use std::process::Abort;

macro_rules! productions {
    ($($left:literal: $from:literal..$upto:literal,)*) => {
        [$(Production { left: $left, right: Span { from: $from, upto: $upto } }),*]
    };
}

macro_rules! spans {
    ($($from:literal..$upto:literal,)*) => { [$(Span { from: $from, upto: $upto }),*] };
}

macro_rules! predictions {
    ($($look:literal: $production:literal,)*) => {
        [$(Prediction { look: $look, production: $production }),*]
    };
}

const PLUS: u16 = 0;

const TIMES: u16 = 1;

const OPEN: u16 = 2;

const CLOSE: u16 = 3;

const NUMBER: u16 = 4;

const END: u16 = u16::MAX;

// Sum = Product More; More = '+' Product More | nothing; Product = Factor Further;
// Further = '*' Factor Further | nothing; Factor = '(' Sum ')' | NUMBER. The inner symbols have the
// numbers 0 to 4 in this order.
static SYMBOLS: [Symbol; 14] = [
    Inner(2),
    Inner(1),
    Terminal(PLUS),
    Inner(2),
    Inner(1),
    Inner(4),
    Inner(3),
    Terminal(TIMES),
    Inner(4),
    Inner(3),
    Terminal(OPEN),
    Inner(0),
    Terminal(CLOSE),
    Terminal(NUMBER),
];

static PRODUCTIONS: [Production; 8] = productions! {
    0: 0..2, 1: 2..5, 1: 5..5, 2: 5..7, 3: 7..10, 3: 10..10, 4: 10..13, 4: 13..14,
};

static TERMINALS: [u16; 9] = [OPEN, NUMBER, PLUS, TIMES, CLOSE, END, PLUS, CLOSE, END];

static EMPTY: [bool; 5] = [false, true, false, true, false];

static FIRST: [Span; 5] = spans! { 0..2, 2..3, 0..2, 3..4, 0..2, };

static FOLLOW: [Span; 5] = spans! { 4..6, 4..6, 6..9, 6..9, 2..6, };

static HEIGHT: [u16; 5] = [2, 0, 1, 0, 0];

static RANK: [u16; 5] = [2, 0, 1, 0, 0];

static PREDICTED: [Span; 5] = spans! { 0..2, 2..5, 5..7, 7..11, 11..13, };

static PREDICTIONS: [Prediction; 13] = predictions! {
    2: 0, 4: 0, 0: 1, 3: 2, 65535: 2, 2: 3, 4: 3, 0: 5, 1: 4, 3: 5, 65535: 5, 2: 6, 4: 7,
};

fn arithmetic() -> Grammar {
    Grammar {
        start: 0,
        productions: &PRODUCTIONS,
        symbols: &SYMBOLS,
        empty: &EMPTY,
        first: &FIRST,
        follow: &FOLLOW,
        terminals: &TERMINALS,
        height: &HEIGHT,
        rank: &RANK,
        predicted: &PREDICTED,
        predictions: &PREDICTIONS,
    }
}

// Start = 'a', which is checked, and a wrong number in each of its claims.
static ONE: [Production; 1] = productions! { 0: 0..1, };

static TWICE: [Production; 2] = productions! { 0: 0..1, 0: 0..1, };

// Start = Start 'a' | 'b', and Start = 'a' Start.
static RECURSIVE: [Production; 2] = productions! { 0: 1..3, 0: 3..4, };

static ENDLESS: [Production; 1] = productions! { 0: 0..2, };

static SMALL_SYMBOLS: [Symbol; 4] = [Terminal(0), Inner(0), Terminal(0), Terminal(1)];

static SMALL_TERMINALS: [u16; 4] = [0, END, 0, 1];

static SMALL_EMPTY: [bool; 1] = [false];

static SMALL_FIRST: [Span; 1] = spans! { 0..1, };

static SMALL_FOLLOW: [Span; 1] = spans! { 1..3, };

static SMALL_NUMBERS: [u16; 1] = [1];

static SMALL_PREDICTIONS: [Prediction; 1] = predictions! { 0: 0, };

static TWO_PREDICTIONS: [Prediction; 2] = predictions! { 0: 0, 0: 1, };

static OTHER_PREDICTIONS: [Prediction; 13] = predictions! {
    2: 0, 4: 0, 0: 1, 3: 2, 65535: 2, 2: 3, 4: 3, 0: 4, 1: 4, 3: 5, 65535: 5, 2: 6, 4: 7,
};

static LAST_FIRST: [Span; 1] = spans! { 3..4, };

static FAR_SYMBOLS: [Symbol; 4] = [Terminal(END), Inner(0), Terminal(0), Terminal(1)];

fn small(productions: &'static [Production]) -> Grammar {
    Grammar {
        start: 0,
        productions,
        symbols: &SMALL_SYMBOLS,
        empty: &SMALL_EMPTY,
        first: &SMALL_FIRST,
        follow: &SMALL_FOLLOW,
        terminals: &SMALL_TERMINALS,
        height: &SMALL_NUMBERS,
        rank: &SMALL_NUMBERS,
        predicted: &SMALL_FIRST,
        predictions: &SMALL_PREDICTIONS,
    }
}

#[test]
fn tables_are_checked_or_refused(rt: HostRuntime) {
    let twice = Grammar {
        predictions: &TWO_PREDICTIONS,
        ..small(&TWICE)
    };
    let recursive = Grammar {
        first: &LAST_FIRST,
        ..small(&RECURSIVE)
    };
    let far = Grammar {
        symbols: &FAR_SYMBOLS,
        ..small(&ONE)
    };
    let other = Grammar {
        predictions: &OTHER_PREDICTIONS,
        ..arithmetic()
    };
    let start = Grammar {
        start: 5,
        ..arithmetic()
    };
    let cases = [
        (arithmetic(), true),
        (small(&ONE), true),
        (small(&TWICE), false),
        (twice, false),
        (recursive, false),
        (small(&ENDLESS), false),
        (far, false),
        (other, false),
        (start, false),
    ];
    for (grammar, is_checked) in cases {
        assert!(rt; grammar.check() == is_checked);
    }
}

fn place_in(rt: &impl Abort, alloc: Global, tokens: &[u16]) -> Option<usize> {
    let grammar = arithmetic();
    assert!(rt; grammar.check());
    match parse(alloc, grammar, tokens) {
        Ok(_) => None,
        Err(Refusal::Syntax(place)) => Some(place),
        Err(Refusal::NoMemory) => {
            assert!(rt; false);
            None
        }
    }
}

#[test]
fn the_first_wrong_token_is_named(rt: HostRuntime) {
    let cases: [(&[u16], Option<usize>); 10] = [
        (&[NUMBER], None),
        (&[NUMBER, PLUS, OPEN, NUMBER, CLOSE, TIMES, NUMBER], None),
        (&[], Some(0)),
        (&[PLUS, NUMBER], Some(0)),
        (&[END], Some(0)),
        (&[NUMBER, NUMBER, PLUS], Some(1)),
        (&[NUMBER, PLUS, TIMES, NUMBER], Some(2)),
        (&[OPEN, NUMBER], Some(2)),
        (&[NUMBER, END], Some(1)),
        (&[OPEN; 64], Some(64)),
    ];
    for (tokens, place) in cases {
        assert!(rt; place_in(&rt, rt.alloc(), tokens) == place);
    }
}

#[test]
fn events_come_in_preorder_and_refusals_repeat(rt: HostRuntime) {
    let grammar = arithmetic();
    assert!(rt; grammar.check());
    let events = [
        Event::Open(0),
        Event::Open(3),
        Event::Open(7),
        Event::Shift,
        Event::Close,
        Event::Open(5),
        Event::Close,
        Event::Close,
        Event::Open(2),
        Event::Close,
        Event::Close,
    ];
    match parse(rt.alloc(), grammar, &[NUMBER]) {
        Ok(told) => assert!(rt; told.as_slice() == events.as_slice()),
        Err(_) => assert!(rt; false),
    }
    let Ok(mut parser) = Parser::new(rt.alloc(), grammar) else {
        assert!(rt; false);
        return;
    };
    assert!(rt; parser.next(Some(CLOSE)) == Err(ParseFault::Syntax));
    assert!(rt; parser.next(Some(NUMBER)) == Err(ParseFault::Syntax));
    assert!(rt; parser.next(None) == Err(ParseFault::Syntax));
}
