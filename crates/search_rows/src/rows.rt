//! Problems, with the options of the prover.

/// The options of a call, its file, and the text of the file `x.p`; the file `axioms.p` has [`AXIOMS`].
pub(crate) struct Row {
    pub(crate) title: &'static str,
    pub(crate) options: &'static [&'static str],
    pub(crate) file: &'static str,
    pub(crate) problem: &'static [u8],
}

/// Declares p and assumes p.
pub(crate) const AXIOMS: &[u8] = b"thf(p_type,type,p: $o).\nthf(a,axiom,p).\n";

/// Declares p, assumes p and conjectures p.
const PLAIN: &[u8] = b"thf(p_type,type,p: $o).\nthf(a,axiom,p).\nthf(c,conjecture,p).\n";

/// From p and its implication of q follows q.
const IMPLICATION: &[u8] =
    b"thf(p_type,type,p: $o).\nthf(q_type,type,q: $o).\nthf(a,axiom,p).\nthf(b,axiom,( p => q )).\nthf(c,conjecture,q).\n";

/// The problems.
pub(crate) const ROWS: &[Row] = &[
    Row {
        title: "an axiom as the conjecture",
        options: &[],
        file: "x.p",
        problem: PLAIN,
    },
    Row {
        title: "one turn is not enough",
        options: &["--turns", "1"],
        file: "x.p",
        problem: PLAIN,
    },
    Row {
        title: "two turns are enough",
        options: &["--turns=2"],
        file: "x.p",
        problem: PLAIN,
    },
    Row {
        title: "no turn at all",
        options: &["--turns", "0"],
        file: "x.p",
        problem: PLAIN,
    },
    Row {
        title: "an empty file",
        options: &[],
        file: "x.p",
        problem: b"",
    },
    Row {
        title: "axioms without a model",
        options: &[],
        file: "x.p",
        problem: b"thf(p_type,type,p: $o).\nthf(a,axiom,p).\nthf(b,axiom,~ p).\n",
    },
    Row {
        title: "falsity as an axiom",
        options: &[],
        file: "x.p",
        problem: b"thf(h,axiom,$false).\n",
    },
    Row {
        title: "what does not follow",
        options: &[],
        file: "x.p",
        problem: b"thf(p_type,type,p: $o).\nthf(q_type,type,q: $o).\nthf(a,axiom,p).\nthf(c,conjecture,q).\n",
    },
    Row {
        title: "an implication",
        options: &[],
        file: "x.p",
        problem: IMPLICATION,
    },
    Row {
        title: "an implication, where all conclusions are too heavy",
        options: &["--weight", "1"],
        file: "x.p",
        problem: IMPLICATION,
    },
    Row {
        title: "all humans are mortal",
        options: &[],
        file: "x.p",
        problem: b"thf(human_type,type,human: $i > $o).\nthf(mortal_type,type,mortal: $i > $o).\nthf(socrates_type,type,socrates: $i).\nthf(a,axiom,! [X: $i] : ( ( human @ X ) => ( mortal @ X ) )).\nthf(b,axiom,human @ socrates).\nthf(c,conjecture,mortal @ socrates).\n",
    },
    Row {
        title: "the cases of a truth value",
        options: &[],
        file: "x.p",
        problem: b"thf(c,conjecture,! [P: $o > $o] : ( ( ( P @ $true ) & ( P @ $false ) ) => ! [X: $o] : ( P @ X ) )).\n",
    },
    Row {
        title: "functions with the same values",
        options: &[],
        file: "x.p",
        problem: b"thf(f_type,type,f: $i > $i).\nthf(g_type,type,g: $i > $i).\nthf(a,axiom,! [X: $i] : ( ( f @ X ) = ( g @ X ) )).\nthf(c,conjecture,( f = g )).\n",
    },
    Row {
        title: "what is chosen by a property",
        options: &[],
        file: "x.p",
        problem: b"thf(p_type,type,p: $i > $o).\nthf(a,axiom,? [X: $i] : ( p @ X )).\nthf(c,conjecture,p @ ( @+ [X: $i] : ( p @ X ) )).\n",
    },
    Row {
        title: "all things are one",
        options: &[],
        file: "x.p",
        problem: b"thf(a_type,type,a: $i).\nthf(b_type,type,b: $i).\nthf(h,axiom,! [X: $i] : X = a).\nthf(c,conjecture,b = a).\n",
    },
    Row {
        title: "two values that differ and are one",
        options: &[],
        file: "x.p",
        problem: b"thf(f_type,type,f: $i > $i).\nthf(x_type,type,x: $i).\nthf(y_type,type,y: $i).\nthf(h,axiom,f @ x = y).\nthf(c,conjecture,y = ( f @ x )).\n",
    },
    Row {
        title: "an intersection is a subset, in ten turns",
        options: &["--turns", "10"],
        file: "x.p",
        problem: b"thf(inter_type,type,inter: ( $i > $o ) > ( $i > $o ) > $i > $o).\nthf(subset_type,type,subset: ( $i > $o ) > ( $i > $o ) > $o).\nthf(inter,definition,( inter = ( ^ [A: $i > $o,B: $i > $o,X: $i] : ( ( A @ X ) & ( B @ X ) ) ) )).\nthf(subset,definition,( subset = ( ^ [A: $i > $o,B: $i > $o] : ( ! [X: $i] : ( ( A @ X ) => ( B @ X ) ) ) ) )).\nthf(c,conjecture,! [A: $i > $o,B: $i > $o] : ( subset @ ( inter @ A @ B ) @ A )).\n",
    },
    Row {
        title: "the beginning of Cantor's theorem",
        options: &["--weight", "14", "--turns", "12"],
        file: "x.p",
        problem: b"thf(c,conjecture,~ ( ? [F: $i > $i > $o] : ( ! [Y: $i > $o] : ( ? [X: $i] : ( ( F @ X ) = Y ) ) ) )).\n",
    },
    Row {
        title: "a generated problem",
        options: &[],
        file: "gen:3",
        problem: b"",
    },
    Row {
        title: "a generated problem, in one turn",
        options: &["--turns", "1"],
        file: "gen:3",
        problem: b"",
    },
    Row {
        title: "names in quotes",
        options: &[],
        file: "x.p",
        problem: b"thf('a type',type,'it\\'s so': $o).\nthf('back\\\\slash',axiom,'it\\'s so').\nthf('C',conjecture,'it\\'s so').\n",
    },
    Row {
        title: "an axiom of another file",
        options: &[],
        file: "x.p",
        problem: b"include('axioms.p').\nthf(c,conjecture,p).\n",
    },
    Row {
        title: "a file that is not there",
        options: &[],
        file: "y.p",
        problem: b"",
    },
];
