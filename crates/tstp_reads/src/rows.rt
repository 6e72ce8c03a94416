//! Derivation texts over small problems, and what becomes of them.

/// A problem, and a text.
pub(crate) struct Row {
    pub(crate) title: &'static str,
    pub(crate) problem: &'static [u8],
    pub(crate) text: &'static [u8],
}

/// A problem of one truth value.
const PLAIN: &[u8] = b"thf(p_type,type,p: $o). thf(a,axiom,p). thf(c,conjecture,p).";

/// A problem with functions.
const TYPED: &[u8] =
    b"thf(s,type,s: $tType). thf(a,type,a: s). thf(b,type,b: $i). thf(q,type,q: s > $o). thf(f,type,f: s > s > s). thf(r,type,r: ( s > $o ) > $o). thf(t,type,t: ( s > $o ) > s > $o). thf(x,axiom,q @ a).";

/// The texts.
pub(crate) const ROWS: &[Row] = &[
    Row {
        title: "the example",
        problem: PLAIN,
        text: b"thf(h0,axiom,p,file('p.p',a)).\nthf(h1,negated_conjecture,( ~ p ),inference(negate,[status(cth)],[file('p.p',c)])).\nthf(l0,plain,( p = $true ),inference(axiom,[status(thm),ev(0)],[h0])).\nthf(l1,plain,( ( ~ p ) = $true ),inference(axiom,[status(thm),ev(1)],[h1])).\nthf(l2,plain,( p = $false ),inference(logic,[status(thm),ev(0,not)],[l1])).\nthf(l3,plain,( ( $true = $false ) | ( p != p ) ),inference(para,[status(thm),ev(0,left,0,left,[])],[l0,l2])).\nthf(l4,plain,( p != p ),inference(drop,[status(thm),ev(0)],[l3])).\nthf(l5,plain,$false,inference(drop,[status(thm),ev(0)],[l4])).\n",
    },
    Row {
        title: "comments and white space are free",
        problem: PLAIN,
        text: b"% first\nthf ( h0\n, /* so */ axiom\n, /* so */ p\n, /* so */ file ( 'p.p'\n, /* so */ a)).\nthf ( h1\n, /* so */ negated_conjecture\n, /* so */  (  ~ p )\n, /* so */ inference ( negate\n, /* so */ [status ( cth)]\n, /* so */ [file ( 'p.p'\n, /* so */ c)])).\nthf ( l0\n, /* so */ plain\n, /* so */  (  p = $true )\n, /* so */ inference ( axiom\n, /* so */ [status ( thm)\n, /* so */ ev ( 0)]\n, /* so */ [h0])).\nthf ( l1\n, /* so */ plain\n, /* so */  (   (  ~ p ) = $true )\n, /* so */ inference ( axiom\n, /* so */ [status ( thm)\n, /* so */ ev ( 1)]\n, /* so */ [h1])).\nthf ( l2\n, /* so */ plain\n, /* so */  (  p = $false )\n, /* so */ inference ( logic\n, /* so */ [status ( thm)\n, /* so */ ev ( 0\n, /* so */ not)]\n, /* so */ [l1])).\nthf ( l3\n, /* so */ plain\n, /* so */  (   (  $true = $false ) |  (  p != p ) )\n, /* so */ inference ( para\n, /* so */ [status ( thm)\n, /* so */ ev ( 0\n, /* so */ left\n, /* so */ 0\n, /* so */ left\n, /* so */ [])]\n, /* so */ [l0\n, /* so */ l2])).\nthf ( l4\n, /* so */ plain\n, /* so */  (  p != p )\n, /* so */ inference ( drop\n, /* so */ [status ( thm)\n, /* so */ ev ( 0)]\n, /* so */ [l3])).\nthf ( l5\n, /* so */ plain\n, /* so */ $false\n, /* so */ inference ( drop\n, /* so */ [status ( thm)\n, /* so */ ev ( 0)]\n, /* so */ [l4])).\n% last",
    },
    Row {
        title: "no token",
        problem: PLAIN,
        text: b"% SZS status GaveUp for p.p\n/* nothing */",
    },
    Row {
        title: "a hypothesis that no line takes",
        problem: PLAIN,
        text: b"thf(h0,axiom,p,file('p.p',a)).\nthf(h1,negated_conjecture,( ~ p ),inference(negate,[status(cth)],[file('p.p',c)])).\nthf(l0,plain,( p = $true ),inference(axiom,[status(thm),ev(0)],[h0])).\n",
    },
    Row {
        title: "the number of a hypothesis that does not stand there",
        problem: PLAIN,
        text: b"thf(h0,axiom,p,file('p.p',a)).\nthf(l0,plain,( p = $true ),inference(axiom,[status(thm),ev(1)],[h0])).\n",
    },
    Row {
        title: "an axiom line without hypotheses",
        problem: PLAIN,
        text: b"thf(l0,plain,( p = $true ),inference(axiom,[status(thm),ev(0)],[h0])).",
    },
    Row {
        title: "a hypothesis behind a line",
        problem: PLAIN,
        text: b"thf(h0,axiom,p,file('p.p',a)).\nthf(l0,plain,( p = $true ),inference(axiom,[status(thm),ev(0)],[h0])).\nthf(h1,negated_conjecture,( ~ p ),inference(negate,[status(cth)],[file('p.p',c)])).\n",
    },
    Row {
        title: "hypotheses in falling order",
        problem: PLAIN,
        text: b"thf(h1,negated_conjecture,( ~ p ),inference(negate,[status(cth)],[file('p.p',c)])).\nthf(h0,axiom,p,file('p.p',a)).\nthf(l0,plain,( p = $true ),inference(axiom,[status(thm),ev(0)],[h0])).\n",
    },
    Row {
        title: "a hypothesis that the problem does not have",
        problem: PLAIN,
        text: b"thf(h2,axiom,p,file('p.p',a)).\n",
    },
    Row {
        title: "another formula of a hypothesis",
        problem: PLAIN,
        text: b"thf(h0,axiom,$true,file('p.p',a)).\n",
    },
    Row {
        title: "another file",
        problem: PLAIN,
        text: b"thf(h0,axiom,p,file('q.p',a)).\n",
    },
    Row {
        title: "another hypothesis as the parent",
        problem: PLAIN,
        text: b"thf(h0,axiom,p,file('p.p',a)).\nthf(h1,negated_conjecture,( ~ p ),inference(negate,[status(cth)],[file('p.p',c)])).\nthf(l0,plain,( p = $true ),inference(axiom,[status(thm),ev(0)],[h1])).\n",
    },
    Row {
        title: "parents need not be earlier",
        problem: PLAIN,
        text: b"thf(l0,plain,$false,inference(convert,[status(thm),ev],[l18446744073709551615])).\n",
    },
    Row {
        title: "a parent's number with a zero at its front",
        problem: PLAIN,
        text: b"thf(l0,plain,$false,inference(convert,[status(thm),ev],[l00])).\n",
    },
    Row {
        title: "a parent's number that is too large",
        problem: PLAIN,
        text: b"thf(l0,plain,$false,inference(convert,[status(thm),ev],[l18446744073709551616])).\n",
    },
    Row {
        title: "a literal's number that is too large",
        problem: PLAIN,
        text: b"thf(l0,plain,$false,inference(drop,[status(thm),ev(4294967296)],[l0])).\n",
    },
    Row {
        title: "a number with a sign",
        problem: PLAIN,
        text: b"thf(l0,plain,$false,inference(drop,[status(thm),ev(+1)],[l0])).\n",
    },
    Row {
        title: "a path's number that is too large",
        problem: PLAIN,
        text: b"thf(l0,plain,$false,inference(para,[status(thm),ev(0,left,1,right,[0,256])],[l0,l1])).\n",
    },
    Row {
        title: "an abbreviation's line where the kind has none",
        problem: PLAIN,
        text: b"thf(l0,plain,$false,inference(logic,[status(thm),ev(0,not)],[l1,l5])).\n",
    },
    Row {
        title: "and none where it has one",
        problem: PLAIN,
        text: b"thf(l0,plain,$false,inference(logic,[status(thm),ev(0,some_t)],[l1])).\n",
    },
    Row {
        title: "an atom in quotes that needs none",
        problem: PLAIN,
        text: b"thf(l0,plain,( 'p' = $true ),inference(refl,[status(thm),ev],[])).\n",
    },
    Row {
        title: "a file without quotes",
        problem: b"thf(p_type,type,p: $o). thf(a,axiom,p).",
        text: b"thf(h0,axiom,p,file(p,a)).\n",
    },
    Row {
        title: "sides of two types",
        problem: TYPED,
        text: b"thf(l0,plain,( ( q @ a ) = a ),inference(refl,[status(thm),ev],[])).\n",
    },
    Row {
        title: "an argument of another type",
        problem: TYPED,
        text: b"thf(l0,plain,( ( q @ b ) = $true ),inference(refl,[status(thm),ev],[])).\n",
    },
    Row {
        title: "a function where a truth value is asked for",
        problem: TYPED,
        text: b"thf(l0,plain,( ( ~ q ) = $true ),inference(refl,[status(thm),ev],[])).\n",
    },
    Row {
        title: "a thing that is applied",
        problem: TYPED,
        text: b"thf(l0,plain,( ( a @ a ) = $true ),inference(refl,[status(thm),ev],[])).\n",
    },
    Row {
        title: "a lambda of another type",
        problem: TYPED,
        text: b"thf(l0,plain,( ( r @ ( ^ [Y0: $i] : $true ) ) = $true ),inference(refl,[status(thm),ev],[])).\n",
    },
    Row {
        title: "a lambda where a thing is asked for",
        problem: TYPED,
        text: b"thf(l0,plain,( ( q @ ( ^ [Y0: s] : $true ) ) = $true ),inference(refl,[status(thm),ev],[])).\n",
    },
    Row {
        title: "a connective where a thing is asked for",
        problem: TYPED,
        text: b"thf(l0,plain,( ( q @ ( ~ $true ) ) = $true ),inference(refl,[status(thm),ev],[])).\n",
    },
    Row {
        title: "an equation where a thing is asked for",
        problem: TYPED,
        text: b"thf(l0,plain,( ( q @ ( a = a ) ) = $true ),inference(refl,[status(thm),ev],[])).\n",
    },
    Row {
        title: "a body of another type",
        problem: TYPED,
        text: b"thf(l0,plain,( ( ! [Y0: s] : Y0 ) = $true ),inference(refl,[status(thm),ev],[])).\n",
    },
    Row {
        title: "a function of the wrong value",
        problem: TYPED,
        text: b"thf(l0,plain,( ( q @ ( ( f @ a ) @ a ) ) = ( a @ a ) ),inference(refl,[status(thm),ev],[])).\n",
    },
    Row {
        title: "a variable that the clause does not have",
        problem: TYPED,
        text: b"thf(l0,plain,! [X0: s] : ( X0 = X1 ),inference(refl,[status(thm),ev],[])).\n",
    },
    Row {
        title: "a variable of another type",
        problem: TYPED,
        text: b"thf(l0,plain,! [X0: s,X1: $i] : ( X0 = X1 ),inference(refl,[status(thm),ev],[])).\n",
    },
    Row {
        title: "variables that are not counted",
        problem: TYPED,
        text: b"thf(l0,plain,! [X0: s,X2: $i] : ( X0 = X0 ),inference(refl,[status(thm),ev],[])).\n",
    },
    Row {
        title: "a variable that no lambda binds",
        problem: TYPED,
        text: b"thf(l0,plain,( a = Y0 ),inference(refl,[status(thm),ev],[])).\n",
    },
    Row {
        title: "lambdas that are not counted",
        problem: TYPED,
        text: b"thf(l0,plain,( ( ! [Y1: s] : $true ) = $true ),inference(refl,[status(thm),ev],[])).\n",
    },
    Row {
        title: "a type that is not declared",
        problem: TYPED,
        text: b"thf(l0,plain,! [X0: u] : ( X0 = X0 ),inference(refl,[status(thm),ev],[])).\n",
    },
    Row {
        title: "a quantifier of a lambda as a constant",
        problem: TYPED,
        text: b"thf(l0,plain,( ( !! @ ( ^ [Y0: s] : $true ) ) = $true ),inference(refl,[status(thm),ev],[])).\n",
    },
    Row {
        title: "quantifiers of sets",
        problem: TYPED,
        text: b"thf(l0,plain,( ( !! @ q ) = ( ?? @ q ) ),inference(refl,[status(thm),ev],[])).\nthf(l1,plain,( a = ( @@+ @ q ) ),inference(refl,[status(thm),ev],[])).\nthf(l2,plain,( ( @+ [Y0: s] : ( q @ Y0 ) ) = ( @@+ @ ( t @ q ) ) ),inference(refl,[status(thm),ev],[])).\n",
    },
    Row {
        title: "a set of other things",
        problem: TYPED,
        text: b"thf(l0,plain,( b = ( @@+ @ q ) ),inference(refl,[status(thm),ev],[])).\n",
    },
    Row {
        title: "a choice that is a function",
        problem: TYPED,
        text: b"thf(l0,plain,( ( ( @+ [Y0: ( s > $o )] : ( r @ Y0 ) ) @ a ) = ( ( @@+ @ r ) @ a ) ),inference(refl,[status(thm),ev],[])).\n",
    },
    Row {
        title: "literals and equations",
        problem: TYPED,
        text: b"thf(l0,plain,( ( a = a ) | ( a != a ) ),inference(refl,[status(thm),ev],[])).\nthf(l1,plain,( ( a = a ) = $true ),inference(refl,[status(thm),ev],[])).\nthf(l2,plain,( ( ( a = a ) | ( q @ a ) ) != $false ),inference(refl,[status(thm),ev],[])).\nthf(l3,plain,! [X0: ( s > $o )] : $false,inference(refl,[status(thm),ev],[])).\n",
    },
    Row {
        title: "a literal that is no equation",
        problem: TYPED,
        text: b"thf(l0,plain,( ( a = a ) | ( q @ a ) ),inference(refl,[status(thm),ev],[])).\n",
    },
    Row {
        title: "terms between literals",
        problem: TYPED,
        text: b"thf(l0,plain,( ( q @ a ) | ( a = a ) ),inference(refl,[status(thm),ev],[])).\n",
    },
    Row {
        title: "a literal as a side",
        problem: TYPED,
        text: b"thf(l0,plain,( ( a != a ) = $true ),inference(refl,[status(thm),ev],[])).\n",
    },
    Row {
        title: "one literal in two brackets",
        problem: TYPED,
        text: b"thf(l0,plain,( ( a = a ) ),inference(refl,[status(thm),ev],[])).\n",
    },
    Row {
        title: "abbreviations",
        problem: TYPED,
        text: b"thf(leo_0_type,type,leo_0: ( s > $o )).\nthf(l0,plain,( leo_0 = q ),inference(abbreviate,[status(esa),ev],[])).\nthf(leo_1_type,type,leo_1: $o).\nthf(l1,plain,( leo_1 = ( leo_0 @ a ) ),inference(abbreviate,[status(esa),ev],[])).\nthf(l2,plain,( ( leo_0 @ a ) = leo_1 ),inference(refl,[status(thm),ev],[])).\n",
    },
    Row {
        title: "an abbreviation by another rule",
        problem: TYPED,
        text: b"thf(leo_0_type,type,leo_0: ( s > $o )).\nthf(l0,plain,( leo_0 = q ),inference(refl,[status(esa),ev],[])).\n",
    },
    Row {
        title: "an abbreviation without its type statement",
        problem: TYPED,
        text: b"thf(l0,plain,( leo_0 = q ),inference(abbreviate,[status(esa),ev],[])).\n",
    },
    Row {
        title: "an abbreviation of no new symbol",
        problem: TYPED,
        text: b"thf(l0,plain,( a = a ),inference(abbreviate,[status(esa),ev],[])).\n",
    },
    Row {
        title: "an abbreviation that is not the next",
        problem: TYPED,
        text: b"thf(leo_1_type,type,leo_0: ( s > $o )).\nthf(l0,plain,( leo_0 = q ),inference(abbreviate,[status(esa),ev],[])).\n",
    },
    Row {
        title: "two type statements",
        problem: TYPED,
        text: b"thf(leo_0_type,type,leo_0: ( s > $o )).\nthf(leo_1_type,type,leo_0: ( s > $o )).\n",
    },
    Row {
        title: "the status of an abbreviation",
        problem: TYPED,
        text: b"thf(leo_0_type,type,leo_0: ( s > $o )).\nthf(l0,plain,( leo_0 = q ),inference(abbreviate,[status(thm),ev],[])).\n",
    },
    Row {
        title: "lines that are not counted",
        problem: PLAIN,
        text: b"thf(l0,plain,$false,inference(convert,[status(thm),ev],[l0])).\nthf(l2,plain,$false,inference(convert,[status(thm),ev],[l0])).\n",
    },
    Row {
        title: "a rule that is not known",
        problem: PLAIN,
        text: b"thf(l0,plain,$false,inference(resolve,[status(thm),ev],[])).\n",
    },
    Row {
        title: "a lost parent",
        problem: PLAIN,
        text: b"thf(l0,plain,$false,inference(para,[status(thm),ev(0,left,0,left,[])],[l0])).\n",
    },
    Row {
        title: "a byte that begins no token",
        problem: PLAIN,
        text: b"thf(h0,axiom,p,file('p.p',a)).\nthf(l0,plain,( p = $true ),inference(axiom,[status(thm),ev(0)],[h0])).\n#",
    },
    Row {
        title: "a quote that is open, behind a token that is refused",
        problem: PLAIN,
        text: b"cnf(h0,axiom,p,file('p.p",
    },
    Row {
        title: "a quote that is open",
        problem: PLAIN,
        text: b"thf(h0,axiom,p,file('p.p",
    },
    Row {
        title: "a comment that is open",
        problem: PLAIN,
        text: b"thf(h0,axiom,p,file('p.p',a)).\n/* so",
    },
    Row {
        title: "a text that is cut in a token",
        problem: PLAIN,
        text: b"thf(h0,axiom,p,file('p.p',a)).\nthf(h1,ne",
    },
    Row {
        title: "a text that is cut behind a token",
        problem: PLAIN,
        text: b"thf(h0,axiom,p,file('p.p',a)).\nthf(",
    },
    Row {
        title: "a line more",
        problem: PLAIN,
        text: b"thf(h0,axiom,p,file('p.p',a)).\nthf(h1,negated_conjecture,( ~ p ),inference(negate,[status(cth)],[file('p.p',c)])).\nthf(l0,plain,( p = $true ),inference(axiom,[status(thm),ev(0)],[h0])).\nthf(l1,plain,( ( ~ p ) = $true ),inference(axiom,[status(thm),ev(1)],[h1])).\nthf(l2,plain,( p = $false ),inference(logic,[status(thm),ev(0,not)],[l1])).\nthf(l3,plain,( ( $true = $false ) | ( p != p ) ),inference(para,[status(thm),ev(0,left,0,left,[])],[l0,l2])).\nthf(l4,plain,( p != p ),inference(drop,[status(thm),ev(0)],[l3])).\nthf(l5,plain,$false,inference(drop,[status(thm),ev(0)],[l4])).\np",
    },
];
