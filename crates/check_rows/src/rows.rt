//! Calls of the checker, and what it is called with.

/// What most rows have, or something of its own.
pub(crate) enum Given<T> {
    Usual,
    Own(T),
}

/// The words of a call, the text of the problem `p.p` and that of the derivation `d.s`, and
/// which fetch and which put fail, from 1.
pub(crate) struct Row {
    pub(crate) title: &'static str,
    pub(crate) words: Given<&'static [&'static str]>,
    pub(crate) problem: Given<&'static [u8]>,
    pub(crate) proof: Given<&'static [u8]>,
    pub(crate) failing_fetch: Option<u64>,
    pub(crate) failing_put: Option<u64>,
}

/// The call that most rows make.
pub(crate) const COMMAND: &[&str] = &["leo3_check", "p.p", "d.s"];

/// Declares p, assumes p and conjectures p.
pub(crate) const PLAIN: &[u8] = b"thf(p_type,type,p: $o).\nthf(a,axiom,p).\nthf(c,conjecture,p).\n";

/// What the prover prints for that problem.
pub(crate) const WHOLE: &[u8] =
    b"% SZS status Theorem for p.p\n% SZS output start Refutation for p.p\nthf(h0,axiom,p,file('p.p',a)).\nthf(h1,negated_conjecture,( ~ p ),inference(negate,[status(cth)],[file('p.p',c)])).\nthf(l0,plain,( p = $true ),inference(axiom,[status(thm),ev(0)],[h0])).\nthf(l1,plain,( ( ~ p ) = $true ),inference(axiom,[status(thm),ev(1)],[h1])).\nthf(l2,plain,( p = $false ),inference(logic,[status(thm),ev(0,not)],[l1])).\nthf(l3,plain,( ( $true = $false ) | ( p != p ) ),inference(para,[status(thm),ev(0,left,0,left,[])],[l0,l2])).\nthf(l4,plain,( p != p ),inference(drop,[status(thm),ev(0)],[l3])).\nthf(l5,plain,$false,inference(drop,[status(thm),ev(0)],[l4])).\n% SZS output end Refutation for p.p\n";

/// The calls.
pub(crate) const ROWS: &[Row] = &[
    Row {
        title: "the example",
        words: Given::Usual,
        problem: Given::Usual,
        proof: Given::Usual,
        failing_fetch: None,
        failing_put: None,
    },
    Row {
        title: "the example, in one text without comments",
        words: Given::Usual,
        problem: Given::Usual,
        proof: Given::Own(
            b"thf(h0,axiom,p,file('p.p',a)).\nthf(h1,negated_conjecture,( ~ p ),inference(negate,[status(cth)],[file('p.p',c)])).\nthf(l0,plain,( p = $true ),inference(axiom,[status(thm),ev(0)],[h0])).\nthf(l1,plain,( ( ~ p ) = $true ),inference(axiom,[status(thm),ev(1)],[h1])).\nthf(l2,plain,( p = $false ),inference(logic,[status(thm),ev(0,not)],[l1])).\nthf(l3,plain,( ( $true = $false ) | ( p != p ) ),inference(para,[status(thm),ev(0,left,0,left,[])],[l0,l2])).\nthf(l4,plain,( p != p ),inference(drop,[status(thm),ev(0)],[l3])).\nthf(l5,plain,$false,inference(drop,[status(thm),ev(0)],[l4])).\n",
        ),
        failing_fetch: None,
        failing_put: None,
    },
    Row {
        title: "another literal is dropped",
        words: Given::Usual,
        problem: Given::Usual,
        proof: Given::Own(
            b"thf(h0,axiom,p,file('p.p',a)).\nthf(h1,negated_conjecture,( ~ p ),inference(negate,[status(cth)],[file('p.p',c)])).\nthf(l0,plain,( p = $true ),inference(axiom,[status(thm),ev(0)],[h0])).\nthf(l1,plain,( ( ~ p ) = $true ),inference(axiom,[status(thm),ev(1)],[h1])).\nthf(l2,plain,( p = $false ),inference(logic,[status(thm),ev(0,not)],[l1])).\nthf(l3,plain,( ( $true = $false ) | ( p != p ) ),inference(para,[status(thm),ev(0,left,0,left,[])],[l0,l2])).\nthf(l4,plain,( p != p ),inference(drop,[status(thm),ev(1)],[l3])).\nthf(l5,plain,$false,inference(drop,[status(thm),ev(0)],[l4])).\n",
        ),
        failing_fetch: None,
        failing_put: None,
    },
    Row {
        title: "the last two lines are left out",
        words: Given::Usual,
        problem: Given::Usual,
        proof: Given::Own(
            b"thf(h0,axiom,p,file('p.p',a)).\nthf(h1,negated_conjecture,( ~ p ),inference(negate,[status(cth)],[file('p.p',c)])).\nthf(l0,plain,( p = $true ),inference(axiom,[status(thm),ev(0)],[h0])).\nthf(l1,plain,( ( ~ p ) = $true ),inference(axiom,[status(thm),ev(1)],[h1])).\nthf(l2,plain,( p = $false ),inference(logic,[status(thm),ev(0,not)],[l1])).\nthf(l3,plain,( ( $true = $false ) | ( p != p ) ),inference(para,[status(thm),ev(0,left,0,left,[])],[l0,l2])).\n",
        ),
        failing_fetch: None,
        failing_put: None,
    },
    Row {
        title: "no line",
        words: Given::Usual,
        problem: Given::Usual,
        proof: Given::Own(b""),
        failing_fetch: None,
        failing_put: None,
    },
    Row {
        title: "comments alone",
        words: Given::Usual,
        problem: Given::Usual,
        proof: Given::Own(b"% SZS status GaveUp for p.p\n"),
        failing_fetch: None,
        failing_put: None,
    },
    Row {
        title: "a parent that does not stand there",
        words: Given::Usual,
        problem: Given::Usual,
        proof: Given::Own(
            b"thf(h0,axiom,p,file('p.p',a)).\nthf(h1,negated_conjecture,( ~ p ),inference(negate,[status(cth)],[file('p.p',c)])).\nthf(l0,plain,( p = $true ),inference(axiom,[status(thm),ev(0)],[h0])).\nthf(l1,plain,( ( ~ p ) = $true ),inference(axiom,[status(thm),ev(1)],[h1])).\nthf(l2,plain,( p = $false ),inference(logic,[status(thm),ev(0,not)],[l1])).\nthf(l3,plain,( ( $true = $false ) | ( p != p ) ),inference(para,[status(thm),ev(0,left,0,left,[])],[l0,l7])).\nthf(l4,plain,( p != p ),inference(drop,[status(thm),ev(0)],[l3])).\nthf(l5,plain,$false,inference(drop,[status(thm),ev(0)],[l4])).\n",
        ),
        failing_fetch: None,
        failing_put: None,
    },
    Row {
        title: "a later parent",
        words: Given::Usual,
        problem: Given::Usual,
        proof: Given::Own(
            b"thf(h0,axiom,p,file('p.p',a)).\nthf(h1,negated_conjecture,( ~ p ),inference(negate,[status(cth)],[file('p.p',c)])).\nthf(l0,plain,( p = $true ),inference(axiom,[status(thm),ev(0)],[h0])).\nthf(l1,plain,( ( ~ p ) = $true ),inference(axiom,[status(thm),ev(1)],[h1])).\nthf(l2,plain,( p = $false ),inference(logic,[status(thm),ev(0,not)],[l1])).\nthf(l3,plain,( ( $true = $false ) | ( p != p ) ),inference(para,[status(thm),ev(0,left,0,left,[])],[l0,l4])).\nthf(l4,plain,( p != p ),inference(drop,[status(thm),ev(0)],[l3])).\nthf(l5,plain,$false,inference(drop,[status(thm),ev(0)],[l4])).\n",
        ),
        failing_fetch: None,
        failing_put: None,
    },
    Row {
        title: "a literal that does not stand there",
        words: Given::Usual,
        problem: Given::Usual,
        proof: Given::Own(
            b"thf(h0,axiom,p,file('p.p',a)).\nthf(h1,negated_conjecture,( ~ p ),inference(negate,[status(cth)],[file('p.p',c)])).\nthf(l0,plain,( p = $true ),inference(axiom,[status(thm),ev(0)],[h0])).\nthf(l1,plain,( ( ~ p ) = $true ),inference(axiom,[status(thm),ev(1)],[h1])).\nthf(l2,plain,( p = $false ),inference(logic,[status(thm),ev(0,not)],[l1])).\nthf(l3,plain,( ( $true = $false ) | ( p != p ) ),inference(para,[status(thm),ev(1,left,0,left,[])],[l0,l2])).\nthf(l4,plain,( p != p ),inference(drop,[status(thm),ev(0)],[l3])).\nthf(l5,plain,$false,inference(drop,[status(thm),ev(0)],[l4])).\n",
        ),
        failing_fetch: None,
        failing_put: None,
    },
    Row {
        title: "a place that does not stand there",
        words: Given::Usual,
        problem: Given::Usual,
        proof: Given::Own(
            b"thf(h0,axiom,p,file('p.p',a)).\nthf(h1,negated_conjecture,( ~ p ),inference(negate,[status(cth)],[file('p.p',c)])).\nthf(l0,plain,( p = $true ),inference(axiom,[status(thm),ev(0)],[h0])).\nthf(l1,plain,( ( ~ p ) = $true ),inference(axiom,[status(thm),ev(1)],[h1])).\nthf(l2,plain,( p = $false ),inference(logic,[status(thm),ev(0,not)],[l1])).\nthf(l3,plain,( ( $true = $false ) | ( p != p ) ),inference(para,[status(thm),ev(0,left,0,left,[0])],[l0,l2])).\nthf(l4,plain,( p != p ),inference(drop,[status(thm),ev(0)],[l3])).\nthf(l5,plain,$false,inference(drop,[status(thm),ev(0)],[l4])).\n",
        ),
        failing_fetch: None,
        failing_put: None,
    },
    Row {
        title: "another clause",
        words: Given::Usual,
        problem: Given::Usual,
        proof: Given::Own(
            b"thf(h0,axiom,p,file('p.p',a)).\nthf(h1,negated_conjecture,( ~ p ),inference(negate,[status(cth)],[file('p.p',c)])).\nthf(l0,plain,( p = $true ),inference(axiom,[status(thm),ev(0)],[h0])).\nthf(l1,plain,( ( ~ p ) = $true ),inference(axiom,[status(thm),ev(1)],[h1])).\nthf(l2,plain,( p = $true ),inference(logic,[status(thm),ev(0,not)],[l1])).\nthf(l3,plain,( ( $true = $false ) | ( p != p ) ),inference(para,[status(thm),ev(0,left,0,left,[])],[l0,l2])).\nthf(l4,plain,( p != p ),inference(drop,[status(thm),ev(0)],[l3])).\nthf(l5,plain,$false,inference(drop,[status(thm),ev(0)],[l4])).\n",
        ),
        failing_fetch: None,
        failing_put: None,
    },
    Row {
        title: "a clause of other types",
        words: Given::Usual,
        problem: Given::Usual,
        proof: Given::Own(
            b"thf(h0,axiom,p,file('p.p',a)).\nthf(h1,negated_conjecture,( ~ p ),inference(negate,[status(cth)],[file('p.p',c)])).\nthf(l0,plain,( p = $true ),inference(axiom,[status(thm),ev(0)],[h0])).\nthf(l1,plain,( ( ~ p ) = $true ),inference(axiom,[status(thm),ev(1)],[h1])).\nthf(l2,plain,( i = j ),inference(logic,[status(thm),ev(0,not)],[l1])).\nthf(l3,plain,( ( $true = $false ) | ( p != p ) ),inference(para,[status(thm),ev(0,left,0,left,[])],[l0,l2])).\nthf(l4,plain,( p != p ),inference(drop,[status(thm),ev(0)],[l3])).\nthf(l5,plain,$false,inference(drop,[status(thm),ev(0)],[l4])).\n",
        ),
        failing_fetch: None,
        failing_put: None,
    },
    Row {
        title: "a name that the problem does not have",
        words: Given::Usual,
        problem: Given::Usual,
        proof: Given::Own(
            b"thf(h0,axiom,p,file('p.p',a)).\nthf(h1,negated_conjecture,( ~ p ),inference(negate,[status(cth)],[file('p.p',c)])).\nthf(l0,plain,( p = $true ),inference(axiom,[status(thm),ev(0)],[h0])).\nthf(l1,plain,( ( ~ p ) = $true ),inference(axiom,[status(thm),ev(1)],[h1])).\nthf(l2,plain,( q = $false ),inference(logic,[status(thm),ev(0,not)],[l1])).\nthf(l3,plain,( ( $true = $false ) | ( p != p ) ),inference(para,[status(thm),ev(0,left,0,left,[])],[l0,l2])).\nthf(l4,plain,( p != p ),inference(drop,[status(thm),ev(0)],[l3])).\nthf(l5,plain,$false,inference(drop,[status(thm),ev(0)],[l4])).\n",
        ),
        failing_fetch: None,
        failing_put: None,
    },
    Row {
        title: "an unknown rule",
        words: Given::Usual,
        problem: Given::Usual,
        proof: Given::Own(
            b"thf(h0,axiom,p,file('p.p',a)).\nthf(h1,negated_conjecture,( ~ p ),inference(negate,[status(cth)],[file('p.p',c)])).\nthf(l0,plain,( p = $true ),inference(axiom,[status(thm),ev(0)],[h0])).\nthf(l1,plain,( ( ~ p ) = $true ),inference(axiom,[status(thm),ev(1)],[h1])).\nthf(l2,plain,( p = $false ),inference(logic,[status(thm),ev(0,not)],[l1])).\nthf(l3,plain,( ( $true = $false ) | ( p != p ) ),inference(paramodulation,[status(thm),ev(0,left,0,left,[])],[l0,l2])).\nthf(l4,plain,( p != p ),inference(drop,[status(thm),ev(0)],[l3])).\nthf(l5,plain,$false,inference(drop,[status(thm),ev(0)],[l4])).\n",
        ),
        failing_fetch: None,
        failing_put: None,
    },
    Row {
        title: "a line number twice",
        words: Given::Usual,
        problem: Given::Usual,
        proof: Given::Own(
            b"thf(h0,axiom,p,file('p.p',a)).\nthf(h1,negated_conjecture,( ~ p ),inference(negate,[status(cth)],[file('p.p',c)])).\nthf(l0,plain,( p = $true ),inference(axiom,[status(thm),ev(0)],[h0])).\nthf(l1,plain,( ( ~ p ) = $true ),inference(axiom,[status(thm),ev(1)],[h1])).\nthf(l1,plain,( p = $false ),inference(logic,[status(thm),ev(0,not)],[l1])).\nthf(l3,plain,( ( $true = $false ) | ( p != p ) ),inference(para,[status(thm),ev(0,left,0,left,[])],[l0,l2])).\nthf(l4,plain,( p != p ),inference(drop,[status(thm),ev(0)],[l3])).\nthf(l5,plain,$false,inference(drop,[status(thm),ev(0)],[l4])).\n",
        ),
        failing_fetch: None,
        failing_put: None,
    },
    Row {
        title: "another hypothesis",
        words: Given::Usual,
        problem: Given::Usual,
        proof: Given::Own(
            b"thf(h0,axiom,( ~ p ),file('p.p',a)).\nthf(h1,negated_conjecture,( ~ p ),inference(negate,[status(cth)],[file('p.p',c)])).\nthf(l0,plain,( p = $true ),inference(axiom,[status(thm),ev(0)],[h0])).\nthf(l1,plain,( ( ~ p ) = $true ),inference(axiom,[status(thm),ev(1)],[h1])).\nthf(l2,plain,( p = $false ),inference(logic,[status(thm),ev(0,not)],[l1])).\nthf(l3,plain,( ( $true = $false ) | ( p != p ) ),inference(para,[status(thm),ev(0,left,0,left,[])],[l0,l2])).\nthf(l4,plain,( p != p ),inference(drop,[status(thm),ev(0)],[l3])).\nthf(l5,plain,$false,inference(drop,[status(thm),ev(0)],[l4])).\n",
        ),
        failing_fetch: None,
        failing_put: None,
    },
    Row {
        title: "a text that ends in a line",
        words: Given::Usual,
        problem: Given::Usual,
        proof: Given::Own(
            b"thf(h0,axiom,p,file('p.p',a)).\nthf(h1,negated_conjecture,( ~ p ),inference(negate,[status(cth)],[file('p.p',c)])).\nthf(l0,plain,( p = $true ),inference(axiom,[status(thm),ev(0)],[h0])).\nthf(l1,plain,( ( ~ p ) = $true ),inference(axiom,[status(thm),ev(1)],[h1])).\nthf(l2,plain,( p = $false ),inference(logic,[status(thm),ev(0,not)],[l1])).\nthf(l3,plain,( ( $true = $false ) | ( p != p ) ),inference(para,[status(thm),ev(0,left,0,left,[])],[l0,l2])).\nthf(l4,plain,( p != p ),inference(drop,[status(thm),ev(0)],[l3])).\nthf(l5,plain,$false,inf",
        ),
        failing_fetch: None,
        failing_put: None,
    },
    Row {
        title: "no token",
        words: Given::Usual,
        problem: Given::Usual,
        proof: Given::Own(
            b"thf(h0,axiom,p,file('p.p',a)).\nthf(h1,negated_conjecture,( ~ p ),inference(negate,[status(cth)],[file('p.p',c)])).\n\x01",
        ),
        failing_fetch: None,
        failing_put: None,
    },
    Row {
        title: "a problem that is no text",
        words: Given::Usual,
        problem: Given::Own(b"thf(a,axiom,!"),
        proof: Given::Usual,
        failing_fetch: None,
        failing_put: None,
    },
    Row {
        title: "a problem with an unknown name",
        words: Given::Usual,
        problem: Given::Own(b"thf(a,axiom,p)."),
        proof: Given::Usual,
        failing_fetch: None,
        failing_put: None,
    },
    Row {
        title: "a problem with a role that is not listed",
        words: Given::Usual,
        problem: Given::Own(b"thf(a,plain,$true)."),
        proof: Given::Usual,
        failing_fetch: None,
        failing_put: None,
    },
    Row {
        title: "two conjectures",
        words: Given::Usual,
        problem: Given::Own(b"thf(a,conjecture,$true).thf(b,conjecture,$true)."),
        proof: Given::Usual,
        failing_fetch: None,
        failing_put: None,
    },
    Row {
        title: "the problem cannot be read",
        words: Given::Usual,
        problem: Given::Usual,
        proof: Given::Usual,
        failing_fetch: Some(1),
        failing_put: None,
    },
    Row {
        title: "the derivation cannot be read",
        words: Given::Usual,
        problem: Given::Usual,
        proof: Given::Usual,
        failing_fetch: Some(2),
        failing_put: None,
    },
    Row {
        title: "a derivation of another name",
        words: Given::Own(&["leo3_check", "p.p", "e.s"]),
        problem: Given::Usual,
        proof: Given::Usual,
        failing_fetch: None,
        failing_put: None,
    },
    Row {
        title: "no words",
        words: Given::Own(&["leo3_check"]),
        problem: Given::Usual,
        proof: Given::Usual,
        failing_fetch: None,
        failing_put: None,
    },
    Row {
        title: "one word",
        words: Given::Own(&["leo3_check", "p.p"]),
        problem: Given::Usual,
        proof: Given::Usual,
        failing_fetch: None,
        failing_put: None,
    },
    Row {
        title: "an option that there is none",
        words: Given::Own(&["leo3_check", "--turns", "1", "p.p", "d.s"]),
        problem: Given::Usual,
        proof: Given::Usual,
        failing_fetch: None,
        failing_put: None,
    },
    Row {
        title: "nothing is written",
        words: Given::Usual,
        problem: Given::Usual,
        proof: Given::Usual,
        failing_fetch: None,
        failing_put: Some(1),
    },
    Row {
        title: "a refusal of which the second line is not written",
        words: Given::Usual,
        problem: Given::Own(b"thf(a,axiom,!"),
        proof: Given::Usual,
        failing_fetch: None,
        failing_put: Some(2),
    },
    Row {
        title: "the version",
        words: Given::Own(&["leo3_check", "--version"]),
        problem: Given::Usual,
        proof: Given::Usual,
        failing_fetch: None,
        failing_put: None,
    },
];
