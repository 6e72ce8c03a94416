//! Prints derivations over small problems.
#![tactic(auto)]

mod cases;
mod given;
mod lines;
mod telling;

use crate::cases::Case;
use crate::telling::{Row, show};
use std::process::ExitCode;

/// The problems and the derivations.
const ROWS: &[Row] = &[
    Row {
        title: "six lines that refute a problem",
        file: "p.p",
        text: b"thf(p_type,type,p: $o). thf(a,axiom,p). thf(c,conjecture,p).",
        case: Case::Refutation,
    },
    Row {
        title: "a hypothesis that no line takes",
        file: "p.p",
        text: b"thf(p_type,type,p: $o). thf(z,axiom,( p | p )). thf(a,axiom,p). thf(c,conjecture,p).",
        case: Case::Last,
    },
    Row {
        title: "terms of each kind",
        file: "terms.p",
        text: b"thf(s,type,s: $tType). thf(a,type,a: s). thf(f,type,f: s > $i > s). thf(p,type,p: s > $o). \
            thf(q,type,q: ( s > $o ) > $o). thf(b,type,b: $i). \
            thf(values,axiom,( $true => ~ $false )). \
            thf(connectives,lemma,( ( p @ a ) & ( p @ a ) ) | ( a = a )). \
            thf(applied,hypothesis,p @ ( f @ a @ b )). \
            thf(lambda,definition,q @ ( ^ [X: s] : ( p @ ( f @ X @ b ) ) )). \
            thf(all,assumption,! [X: s,Y: s] : ( X = Y )). \
            thf(some,theorem,? [P: s > $o] : ( P @ a )). \
            thf(chosen,corollary,p @ ( @+ [X: s] : ( p @ X ) )). \
            thf(inner,axiom,! [X: s] : ( q @ ( ^ [Y: s] : ( X = Y ) ) )). \
            thf(all_of,axiom,! [P: s > $o] : ( !! @ P )). \
            thf(some_of,axiom,! [P: s > $o] : ( ?? @ P )). \
            thf(chosen_of,axiom,! [P: s > $o] : ( P @ ( @@+ @ P ) )).",
        case: Case::Assumed,
    },
    Row {
        title: "names in quotes",
        file: "it's.p",
        text: b"thf(t,type,'A b': $tType). thf(u,type,'it\\'s': 'A b'). thf(v,type,'\\\\': 'A b' > $o). \
            thf(w,type,'plain': $o). thf(x,type,'1': $o). \
            thf('One',axiom,'\\\\' @ 'it\\'s'). thf(007,axiom,plain | '1'). thf('x y',conjecture,! [X: 'A b'] : ( '\\\\' @ X )).",
        case: Case::Assumed,
    },
    Row {
        title: "a file with bytes that are not shown",
        file: "\u{e9}.p",
        text: b"thf(a,axiom,$true).",
        case: Case::Assumed,
    },
    Row {
        title: "each rule, and variables of different types",
        file: "p.p",
        text: b"thf(a,axiom,$true).",
        case: Case::Rules,
    },
    Row {
        title: "abbreviations",
        file: "p.p",
        text: b"thf(t,type,leo_1: $tType). thf(u,type,leo__2: $o). thf(v,type,leo: $o). thf(a,axiom,leo__2 | leo).",
        case: Case::Abbreviations,
    },
    Row {
        title: "no line",
        file: "p.p",
        text: b"thf(a,axiom,$true).",
        case: Case::Nothing,
    },
];

fn main(rt: HostRuntime) -> ExitCode {
    for row in ROWS {
        show(&rt, row);
    }
    ExitCode::SUCCESS
}
