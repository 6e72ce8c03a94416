use super::*;
use leo_lex::tokens;
use std::alloc::Global;
use std::process::Abort;
use std::test::Fail;

/// The refusal of a text, or none where it is read.
fn refusal(alloc: Global, bytes: &[u8]) -> Result<Option<ReadRefusal>, Fail> {
    if bytes.len() > 4_000_000 {
        return Err("a longer text".into());
    }
    let list = match tokens(alloc, bytes) {
        Ok(list) => list,
        Err(_) => return Err("no tokens".into()),
    };
    Ok(read(alloc, bytes, &list).err())
}

fn is_read(rt: &impl Abort, alloc: Global, text: &str) -> Result<(), Fail> {
    assert_eq!(rt; refusal(alloc, text.as_bytes())?, None, "{text}");
    Ok(())
}

fn is_syntax(rt: &impl Abort, alloc: Global, text: &str, byte: u32) -> Result<(), Fail> {
    let wanted = ReadRefusal::Syntax { byte };
    assert_eq!(rt; refusal(alloc, text.as_bytes())?, Some(wanted), "{text}");
    Ok(())
}

/// The first refused token of a text is of that form.
fn is_of(rt: &impl Abort, alloc: Global, text: &str, byte: u32, form: Form) -> Result<(), Fail> {
    let wanted = ReadRefusal::Unsupported { byte, form };
    assert_eq!(rt; refusal(alloc, text.as_bytes())?, Some(wanted), "{text}");
    Ok(())
}

/// A formula in so many brackets.
fn nested(alloc: Global, depth: usize) -> Result<Vec<u8>, Fail> {
    let mut text = Vec::new(alloc);
    text.extend_from_slice(b"thf(a,axiom,")?;
    for _ in 0..depth {
        text.push(b'(')?;
    }
    text.extend_from_slice(b"$true")?;
    for _ in 0..depth {
        text.push(b')')?;
    }
    text.extend_from_slice(b").")?;
    Ok(text)
}

/// An application whose heads are applications in brackets, with as many arguments as the levels hold.
fn spine(alloc: Global) -> Result<Vec<u8>, Fail> {
    let mut text = Vec::new(alloc);
    text.extend_from_slice(b"thf(a,axiom,")?;
    for _ in 0..500 {
        text.push(b'(')?;
    }
    text.push(b'f')?;
    for count in 0..501 {
        append_arguments(&mut text, count)?;
        if count < 500 {
            text.push(b')')?;
        }
    }
    text.extend_from_slice(b").")?;
    Ok(text)
}

fn append_arguments(text: &mut Vec<u8>, count: usize) -> Result<(), Fail> {
    for _ in 0..count {
        text.extend_from_slice(b" @ a")?;
    }
    Ok(())
}

/// One text many times.
fn repeated(alloc: Global, part: &[u8], count: usize) -> Result<Vec<u8>, Fail> {
    let mut text = Vec::new(alloc);
    for _ in 0..count {
        text.extend_from_slice(part)?;
    }
    Ok(text)
}

#[cycle(trees_compared)]
fn same_tree(one: &Tree, other: &Tree) -> bool {
    match (&one.node, &other.node) {
        (Node::Atom(name), Node::Atom(wanted)) | (Node::Var(name), Node::Var(wanted)) => {
            name.as_slice() == wanted.as_slice()
        }
        (Node::True, Node::True) | (Node::Negation, Node::Negation) => true,
        (Node::Apply(head, list), Node::Apply(other_head, others)) => {
            same_tree(head.get(), other_head.get())
                && same_trees(list.as_slice(), others.as_slice())
        }
        (Node::Bind(binder, list, body), Node::Bind(other_binder, others, other_body)) => {
            binder == other_binder
                && list.len() == others.len()
                && same_tree(body.get(), other_body.get())
        }
        (Node::Not(operand), Node::Not(wanted)) => same_tree(operand.get(), wanted.get()),
        (Node::Join(connective, left, right), Node::Join(wanted, other_left, other_right)) => {
            connective == wanted
                && same_tree(left.get(), other_left.get())
                && same_tree(right.get(), other_right.get())
        }
        (Node::Equal(sign, _, left, right), Node::Equal(wanted, _, other_left, other_right)) => {
            sign == wanted
                && same_tree(left.get(), other_left.get())
                && same_tree(right.get(), other_right.get())
        }
        _ => false,
    }
}

#[cycle(trees_compared)]
fn same_trees(list: &[Tree], others: &[Tree]) -> bool {
    if list.len() != others.len() {
        return false;
    }
    for at in 0..list.len() {
        if !same_tree(&list[at], &others[at]) {
            return false;
        }
    }
    true
}

/// The statements of a text.
fn statements(alloc: Global, bytes: &[u8]) -> Result<Vec<Statement>, Fail> {
    if bytes.len() > 4_000_000 {
        return Err("a longer text".into());
    }
    let list = match tokens(alloc, bytes) {
        Ok(list) => list,
        Err(_) => return Err("no tokens".into()),
    };
    let found = read(alloc, bytes, &list)?;
    Ok(found)
}

/// Whether two texts of one formula each have one tree up to bytes.
fn reads_as(alloc: Global, text: &[u8], wanted: &[u8]) -> Result<bool, Fail> {
    let found = statements(alloc, text)?;
    let others = statements(alloc, wanted)?;
    match (found.first(), others.first()) {
        (
            Some(Statement::Formula { tree, .. }),
            Some(
                Statement::Formula {
                    tree: other_tree,
                    ..
                },
            ),
        ) => Ok(same_tree(tree, other_tree)),
        _ => Ok(false),
    }
}

/// What is written of the statements of a text.
fn written(alloc: Global, text: &[u8]) -> Result<Vec<u8>, Fail> {
    let found = statements(alloc, text)?;
    let mut out = Vec::new(alloc);
    write(&found, &mut out)?;
    Ok(out)
}

/// The text is written so, and what is written is written as it stands.
fn is_written(rt: &impl Abort, alloc: Global, text: &[u8], wanted: &[u8]) -> Result<(), Fail> {
    let out = written(alloc, text)?;
    assert_eq!(rt; out.as_slice(), wanted);
    let again = written(alloc, &out)?;
    assert_eq!(rt; again.as_slice(), wanted);
    Ok(())
}

#[test]
fn texts_of_the_grammar(rt: HostRuntime) -> Result<(), Fail> {
    let alloc = rt.alloc();
    is_read(&rt, alloc, "")?;
    is_read(&rt, alloc, "thf('A b',axiom,~ a = b | p @ (q @ X)). % c")?;
    is_read(&rt, alloc, "thf(007,type,((f: ($i > s) > $o))).")?;
    is_read(&rt, alloc, "thf(a,lemma,(&) @ p @ ! [X: $i,Y: s] : X = Y).")?;
    is_read(&rt, alloc, "thf(a,axiom,f @ ! [X: $i] : p = q = ~ r = s).")?;
    is_read(&rt, alloc, "thf(a,axiom,(p <~> q) & (!! @ (~))).")?;
    is_read(&rt, alloc, "thf(a,type,s: $tType,file('x',[1,{$x:-}])).")?;
    is_read(
        &rt,
        alloc,
        "include('a'). include('b',[]). include('c',[d,'e f',7]).",
    )?;
    Ok(())
}

#[test]
fn refused_at_the_first_token(rt: HostRuntime) -> Result<(), Fail> {
    let alloc = rt.alloc();
    is_syntax(&rt, alloc, "thf(a,axiom,!", 13)?;
    is_syntax(&rt, alloc, "thf(a,axiom,a | b & c).", 18)?;
    is_syntax(&rt, alloc, "thf(a,axiom,f @ ~ p).", 16)?;
    is_syntax(&rt, alloc, "thf(a,axiom,$i).", 12)?;
    is_syntax(&rt, alloc, "thf(a,axiom,p 1).", 14)?;
    is_syntax(&rt, alloc, "thf(a,type,f: $true).", 14)?;
    is_syntax(&rt, alloc, "thf(a,'axiom',p).", 6)?;
    Ok(())
}

#[test]
fn refused_in_annotations_and_includes(rt: HostRuntime) -> Result<(), Fail> {
    let alloc = rt.alloc();
    is_syntax(&rt, alloc, "thf(a,axiom,p,).", 14)?;
    is_syntax(&rt, alloc, "thf(a,axiom,p,(]).", 15)?;
    is_syntax(&rt, alloc, "thf(a,axiom,p,q}).", 15)?;
    is_syntax(&rt, alloc, "thf(a,axiom,p,[", 15)?;
    is_syntax(&rt, alloc, "include(a).", 8)?;
    is_syntax(&rt, alloc, "include('a',[b,]).", 15)?;
    is_of(&rt, alloc, "include('a',*).", 12, Form::Mark)?;
    is_of(&rt, alloc, "include(=", 8, Form::Equality)?;
    Ok(())
}

#[test]
fn unsupported_in_a_formula(rt: HostRuntime) -> Result<(), Fail> {
    let alloc = rt.alloc();
    is_of(&rt, alloc, "thf(a,axiom,1).", 12, Form::Number)?;
    is_of(&rt, alloc, "thf(a,axiom,\"1\").", 12, Form::Distinct)?;
    is_of(&rt, alloc, "thf(a,axiom,[p]).", 12, Form::Tuple)?;
    is_of(
        &rt,
        alloc,
        "thf(a,axiom,!> [X: s] : p).",
        12,
        Form::Polymorphism,
    )?;
    is_of(&rt, alloc, "thf(a,axiom,$let).", 12, Form::Let)?;
    is_of(
        &rt,
        alloc,
        "thf(a,axiom,@- [X: s] : p).",
        12,
        Form::Description,
    )?;
    is_of(&rt, alloc, "thf(a,axiom,f(p)).", 13, Form::Arguments)?;
    is_of(&rt, alloc, "thf(a,axiom,(= p)).", 13, Form::Equality)?;
    is_of(&rt, alloc, "thf(a,axiom,$less).", 12, Form::Word)?;
    is_of(&rt, alloc, "thf(a,axiom,$$f).", 12, Form::System)?;
    is_of(&rt, alloc, "thf(a,axiom,p --> q).", 14, Form::Mark)?;
    Ok(())
}

#[test]
fn unsupported_elsewhere(rt: HostRuntime) -> Result<(), Fail> {
    let alloc = rt.alloc();
    is_of(&rt, alloc, "thf(a,type,s << t).", 13, Form::Subtype)?;
    is_of(&rt, alloc, "thf(a,type,f: s * s).", 16, Form::Product)?;
    is_of(&rt, alloc, "thf(a,type,f: s @ s).", 16, Form::TypeArguments)?;
    is_of(&rt, alloc, "fof(a,axiom,p).", 0, Form::Dialect)?;
    is_of(&rt, alloc, "thf(=", 4, Form::Equality)?;
    is_of(&rt, alloc, "thf(a,axiom,p) *", 15, Form::Mark)?;
    Ok(())
}

#[test]
fn levels(rt: HostRuntime) -> Result<(), Fail> {
    let text = nested(rt.alloc(), 500)?;
    assert_eq!(rt; refusal(rt.alloc(), &text)?, None);
    let text = nested(rt.alloc(), 501)?;
    assert_eq!(rt;
        refusal(rt.alloc(), &text)?,
        Some(ReadRefusal::Deep { byte: 513 })
    );
    Ok(())
}

#[test]
fn large_texts(rt: HostRuntime) -> Result<(), Fail> {
    let text = spine(rt.alloc())?;
    assert_eq!(rt; text.len(), 502_015);
    let out = written(rt.alloc(), &text)?;
    assert!(rt; reads_as(rt.alloc(), &text, &out)?);
    let text = repeated(rt.alloc(), b"thf(a,axiom,p,[[q]]).\n", 100_000)?;
    assert_eq!(rt; refusal(rt.alloc(), &text)?, None);
    Ok(())
}

#[test]
fn annotations_nest_without_bound(rt: HostRuntime) -> Result<(), Fail> {
    let mut text = repeated(rt.alloc(), b"thf(a,axiom,p,", 1)?;
    text.append(&mut repeated(rt.alloc(), b"([{", 5000)?)?;
    text.append(&mut repeated(rt.alloc(), b"}])", 5000)?)?;
    text.extend_from_slice(b").")?;
    assert_eq!(rt; refusal(rt.alloc(), &text)?, None);
    text.push(b'}')?;
    assert_eq!(rt;
        refusal(rt.alloc(), &text)?,
        Some(ReadRefusal::Unsupported {
            byte: 30_016,
            form: Form::Mark
        })
    );
    Ok(())
}

#[test]
fn an_include_with_names(rt: HostRuntime) -> Result<(), Fail> {
    let bytes = b"% c\ninclude( 'A b' , [c, 'c d']).";
    let list = match tokens(rt.alloc(), bytes) {
        Ok(list) => list,
        Err(_) => return Err("no tokens".into()),
    };
    let found = read(rt.alloc(), bytes, &list)?;
    let Some(
        Statement::Include {
            byte,
            file,
            file_byte,
            names: Some(names),
        },
    ) = found.first()
    else {
        return Err("no include with names".into());
    };
    assert_eq!(rt; (*byte, *file_byte), (4, 13));
    assert_eq!(rt; file.as_slice(), b"A b".as_slice());
    assert_eq!(rt; names.len(), 2);
    assert!(rt;
        names
            .get(1)
            .is_some_and(|name| name.as_slice() == b"c d".as_slice())
    );
    Ok(())
}

#[test]
fn readings_without_brackets(rt: HostRuntime) -> Result<(), Fail> {
    let alloc = rt.alloc();
    assert!(rt;
        reads_as(
            alloc,
            b"thf(a,axiom,f @ x = y).",
            b"thf(a,axiom,( ( f @ x ) = y ))."
        )?
    );
    assert!(rt;
        reads_as(
            alloc,
            b"thf(a,axiom,~ a = b).",
            b"thf(a,axiom,( ~ ( a = b ) ))."
        )?
    );
    assert!(rt;
        reads_as(
            alloc,
            b"thf(a,axiom,! [X: $i] : X = a).",
            b"thf(a,axiom,( ! [X: $i] : ( X = a ) ))."
        )?
    );
    assert!(rt;
        reads_as(
            alloc,
            b"thf(a,axiom,p | q | r).",
            b"thf(a,axiom,p | ( q | r ))."
        )?
    );
    assert!(rt;
        reads_as(
            alloc,
            b"thf(a,axiom,a = ~ p = 'q').",
            b"thf(a,axiom,a = ( ~ ( p = q ) ))."
        )?
    );
    assert!(rt;
        !reads_as(
            alloc,
            b"thf(a,axiom,f @ x @ y).",
            b"thf(a,axiom,f @ ( x @ y ))."
        )?
    );
    Ok(())
}

#[test]
fn written_formulas(rt: HostRuntime) -> Result<(), Fail> {
    let alloc = rt.alloc();
    is_written(
        &rt,
        alloc,
        b"thf(a,axiom,((f @ x) = y)).",
        b"thf ( a , axiom , f @ x = y ) . ",
    )?;
    is_written(
        &rt,
        alloc,
        b"thf('A b',axiom,(~ (a = 'b'))).",
        b"thf ( 'A b' , axiom , ~ a = b ) . ",
    )?;
    is_written(
        &rt,
        alloc,
        b"thf(a,axiom,![X:$i,Y:s > (t > t)]: X = a).",
        b"thf ( a , axiom , ! [ X : $i , Y : s > t > t ] : X = a ) . ",
    )?;
    is_written(
        &rt,
        alloc,
        b"thf(a,axiom,(p|q)|(r|(f @ ^[X:$i]:p) = q)).",
        b"thf ( a , axiom , ( p | q ) | r | f @ ( ^ [ X : $i ] : p ) = q ) . ",
    )?;
    is_written(
        &rt,
        alloc,
        b"thf(a,axiom,(f @ x) @ ?[X:s]:(&) @ $true).",
        b"thf ( a , axiom , ( f @ x ) @ ? [ X : s ] : ( & ) @ $true ) . ",
    )?;
    is_written(
        &rt,
        alloc,
        b"thf(a,axiom,f @ (![X:s]: p = (~q)) = ~ r = s).",
        b"thf ( a , axiom , f @ ! [ X : s ] : p = ( ~ q ) = ~ r = s ) . ",
    )?;
    Ok(())
}

#[test]
fn written_statements(rt: HostRuntime) -> Result<(), Fail> {
    let alloc = rt.alloc();
    is_written(
        &rt,
        alloc,
        b"thf(007,type,((f: (s > s) > s)),file(a)).",
        b"thf ( 007 , type , f : ( s > s ) > s ) . ",
    )?;
    is_written(
        &rt,
        alloc,
        b"include('a',[b,'c d']).include('it\\'s').",
        b"include ( 'a' , [ b , 'c d' ] ) . include ( 'it\\'s' ) . ",
    )?;
    Ok(())
}
