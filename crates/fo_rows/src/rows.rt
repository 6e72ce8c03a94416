//! Problem texts, with what the outside does.

/// What the source and the sink of a row do; calls and puts count from 1.
#[derive(Clone, Copy)]
pub(crate) enum Outside {
    /// They give and take all at once.
    Whole,
    /// The source gives a byte at a time.
    SourceBytes,
    /// The source gives a byte at a time, and the sink takes one at a time.
    Bytes,
    /// The source fails at a call.
    SourceFails { call: u64 },
    /// The source gives a byte at a time, and fails at a call.
    SourceBytesFail { call: u64 },
    /// The sink fails at a put.
    SinkFails { put: u64 },
}

/// A problem text, and bytes behind it.
pub(crate) struct Row {
    pub(crate) title: &'static str,
    pub(crate) text: &'static [u8],
    pub(crate) behind: &'static [u8],
    pub(crate) outside: Outside,
}

/// All have the property f3, and f2 has it not.
const PROPERTY: &[u8] =
    b"leo3fo 1\nturns 10000\nweight 256\nsorts 2\nsyms 4\n0\n0\n1\n0 1\nclauses 3\n0 1 - f0 f1\n1 1 1 + f3 v0 f0\n0 1 + f3 f2 f1\nend\n";

/// The problems. Where they have an f0 and an f1, these are the truth values.
pub(crate) const ROWS: &[Row] = &[
    Row {
        title: "all have the property, and one has not",
        text: PROPERTY,
        behind: b"",
        outside: Outside::Whole,
    },
    Row {
        title: "a unit and an inverse on the left",
        text: b"leo3fo 1\nturns 10000\nweight 256\nsorts 2\nsyms 7\n0\n0\n1\n1 1\n1 1 1\n1\n1\nclauses 4\n0 1 - f0 f1\n1 1 1 + f4 f2 v0 v0\n1 1 1 + f4 f3 v0 v0 f2\n0 1 - f4 f3 f4 f2 f5 f5 f2\nend\n",
        behind: b"",
        outside: Outside::Whole,
    },
    Row {
        title: "a group: an inverse cancels",
        text: b"leo3fo 1\nturns 10000\nweight 256\nsorts 2\nsyms 7\n0\n0\n1\n1 1\n1 1 1\n1\n1\nclauses 5\n0 1 - f0 f1\n1 1 1 + f4 f2 v0 v0\n1 1 1 + f4 f3 v0 v0 f2\n3 1 1 1 1 + f4 f4 v0 v1 v2 f4 v0 f4 v1 v2\n0 1 - f4 f3 f5 f4 f5 f6 f6\nend\n",
        behind: b"",
        outside: Outside::Whole,
    },
    Row {
        title: "a < b, b < c, and not a < c",
        text: b"leo3fo 1\nturns 10000\nweight 256\nsorts 2\nsyms 6\n0\n0\n1\n1\n1\n0 1 1\nclauses 5\n0 1 - f0 f1\n3 1 1 1 3 - f5 v0 v1 f0 - f5 v1 v2 f0 + f5 v0 v2 f0\n0 1 + f5 f2 f3 f0\n0 1 + f5 f3 f4 f0\n0 1 - f5 f2 f4 f0\nend\n",
        behind: b"",
        outside: Outside::Whole,
    },
    Row {
        title: "two clauses that have to be factored",
        text: b"leo3fo 1\nturns 10000\nweight 256\nsorts 2\nsyms 3\n0\n0\n0 1\nclauses 3\n0 1 - f0 f1\n2 1 1 2 + f2 v0 f0 + f2 v1 f0\n2 1 1 2 + f2 v0 f1 + f2 v1 f1\nend\n",
        behind: b"",
        outside: Outside::Whole,
    },
    Row {
        title: "several sorts",
        text: b"leo3fo 1\nturns 10000\nweight 256\nsorts 3\nsyms 6\n0\n0\n2 1\n0 2 2\n1\n1\nclauses 4\n0 1 - f0 f1\n1 2 1 + f3 v0 v0 f0\n0 1 + f2 f4 f2 f5\n0 1 - f3 f2 f4 f2 f5 f0\nend\n",
        behind: b"",
        outside: Outside::Whole,
    },
    Row {
        title: "an implication",
        text: b"leo3fo 1\nturns 10000\nweight 256\nsorts 2\nsyms 4\n0\n0\n0\n0\nclauses 4\n0 1 - f0 f1\n0 2 + f2 f1 + f3 f0\n0 1 + f2 f0\n0 1 + f3 f1\nend\n",
        behind: b"",
        outside: Outside::Whole,
    },
    Row {
        title: "an axiom and its denial",
        text: b"leo3fo 1\nturns 10000\nweight 256\nsorts 1\nsyms 3\n0\n0\n0\nclauses 3\n0 1 - f0 f1\n0 1 + f2 f0\n0 1 + f2 f1\nend\n",
        behind: b"",
        outside: Outside::Whole,
    },
    Row {
        title: "the truth values differ",
        text: b"leo3fo 1\nturns 10000\nweight 256\nsorts 1\nsyms 2\n0\n0\nclauses 1\n0 1 - f0 f1\nend\n",
        behind: b"",
        outside: Outside::Whole,
    },
    Row {
        title: "nothing is left",
        text: b"leo3fo 1\nturns 10000\nweight 256\nsorts 2\nsyms 5\n0\n0\n1\n0 1\n0 1\nclauses 3\n0 1 - f0 f1\n0 1 + f3 f2 f0\n0 1 - f4 f2 f0\nend\n",
        behind: b"",
        outside: Outside::Whole,
    },
    Row {
        title: "no clause at all",
        text: b"leo3fo 1\nturns 10000\nweight 256\nsorts 0\nsyms 0\nclauses 0\nend\n",
        behind: b"",
        outside: Outside::Whole,
    },
    Row {
        title: "nine turns are not enough",
        text: b"leo3fo 1\nturns 9\nweight 256\nsorts 2\nsyms 6\n0\n0\n1\n1\n1\n0 1 1\nclauses 5\n0 1 - f0 f1\n3 1 1 1 3 - f5 v0 v1 f0 - f5 v1 v2 f0 + f5 v0 v2 f0\n0 1 + f5 f2 f3 f0\n0 1 + f5 f3 f4 f0\n0 1 - f5 f4 f2 f0\nend\n",
        behind: b"",
        outside: Outside::Whole,
    },
    Row {
        title: "ten turns are not enough",
        text: b"leo3fo 1\nturns 10\nweight 256\nsorts 2\nsyms 6\n0\n0\n1\n1\n1\n0 1 1\nclauses 5\n0 1 - f0 f1\n3 1 1 1 3 - f5 v0 v1 f0 - f5 v1 v2 f0 + f5 v0 v2 f0\n0 1 + f5 f2 f3 f0\n0 1 + f5 f3 f4 f0\n0 1 - f5 f4 f2 f0\nend\n",
        behind: b"",
        outside: Outside::Whole,
    },
    Row {
        title: "twenty-five turns are not enough",
        text: b"leo3fo 1\nturns 25\nweight 256\nsorts 2\nsyms 6\n0\n0\n1\n1\n1\n0 1 1\nclauses 5\n0 1 - f0 f1\n3 1 1 1 3 - f5 v0 v1 f0 - f5 v1 v2 f0 + f5 v0 v2 f0\n0 1 + f5 f2 f3 f0\n0 1 + f5 f3 f4 f0\n0 1 - f5 f4 f2 f0\nend\n",
        behind: b"",
        outside: Outside::Whole,
    },
    Row {
        title: "a group: an inverse on the right",
        text: b"leo3fo 1\nturns 1000\nweight 30\nsorts 2\nsyms 7\n0\n0\n1\n1 1\n1 1 1\n1\n1\nclauses 5\n0 1 - f0 f1\n1 1 1 + f4 f2 v0 v0\n1 1 1 + f4 f3 v0 v0 f2\n3 1 1 1 1 + f4 f4 v0 v1 v2 f4 v0 f4 v1 v2\n0 1 - f4 f5 f3 f5 f2\nend\n",
        behind: b"",
        outside: Outside::Whole,
    },
    Row {
        title: "the same, where all conclusions are too heavy",
        text: b"leo3fo 1\nturns 1000\nweight 4\nsorts 2\nsyms 7\n0\n0\n1\n1 1\n1 1 1\n1\n1\nclauses 5\n0 1 - f0 f1\n1 1 1 + f4 f2 v0 v0\n1 1 1 + f4 f3 v0 v0 f2\n3 1 1 1 1 + f4 f4 v0 v1 v2 f4 v0 f4 v1 v2\n0 1 - f4 f5 f3 f5 f2\nend\n",
        behind: b"",
        outside: Outside::Whole,
    },
    Row {
        title: "an empty clause in the text",
        text: b"leo3fo 1\nturns 10000\nweight 256\nsorts 1\nsyms 2\n0\n0\nclauses 2\n0 1 - f0 f1\n0 0\nend\n",
        behind: b"",
        outside: Outside::Whole,
    },
    Row {
        title: "an empty clause over variables, in one turn",
        text: b"leo3fo 1\nturns 1\nweight 1\nsorts 1\nsyms 2\n0\n0\nclauses 2\n2 0 0 0\n0 0\nend\n",
        behind: b"",
        outside: Outside::Whole,
    },
    Row {
        title: "tautologies in the text",
        text: b"leo3fo 1\nturns 100\nweight 256\nsorts 2\nsyms 4\n0\n0\n1\n0 1\nclauses 4\n0 1 - f0 f1\n1 1 1 + v0 v0\n0 2 + f3 f2 f0 - f3 f2 f0\n0 2 + f3 f2 f0 + f3 f2 f1\nend\n",
        behind: b"",
        outside: Outside::Whole,
    },
    Row {
        title: "no problem text",
        text: b"x",
        behind: b"",
        outside: Outside::Whole,
    },
    Row {
        title: "an empty text",
        text: b"",
        behind: b"",
        outside: Outside::Whole,
    },
    Row {
        title: "a text that is cut",
        text: b"leo3fo 1\nturns 10000\nweight 256\nsorts 2\nsyms 4\n0\n0\n1\n0 1\n",
        behind: b"",
        outside: Outside::Whole,
    },
    Row {
        title: "a sort that is not there",
        text: b"leo3fo 1\nturns 1\nweight 1\nsorts 1\nsyms 2\n0\n1\nclauses 0\nend\n",
        behind: b"",
        outside: Outside::Whole,
    },
    Row {
        title: "bytes behind the line `end`",
        text: PROPERTY,
        behind: b"more bytes\nend\n",
        outside: Outside::Whole,
    },
    Row {
        title: "the source fails",
        text: PROPERTY,
        behind: b"",
        outside: Outside::SourceFails { call: 1 },
    },
    Row {
        title: "the source fails amid the text",
        text: PROPERTY,
        behind: b"",
        outside: Outside::SourceBytesFail { call: 20 },
    },
    Row {
        title: "the source gives a byte at a time",
        text: PROPERTY,
        behind: b"more bytes\n",
        outside: Outside::SourceBytes,
    },
    Row {
        title: "the source gives a byte at a time, and the sink takes one",
        text: PROPERTY,
        behind: b"",
        outside: Outside::Bytes,
    },
    Row {
        title: "the sink fails",
        text: PROPERTY,
        behind: b"",
        outside: Outside::SinkFails { put: 1 },
    },
    Row {
        title: "the sink fails behind a beat",
        text: b"leo3fo 1\nturns 10\nweight 256\nsorts 2\nsyms 6\n0\n0\n1\n1\n1\n0 1 1\nclauses 5\n0 1 - f0 f1\n3 1 1 1 3 - f5 v0 v1 f0 - f5 v1 v2 f0 + f5 v0 v2 f0\n0 1 + f5 f2 f3 f0\n0 1 + f5 f3 f4 f0\n0 1 - f5 f4 f2 f0\nend\n",
        behind: b"",
        outside: Outside::SinkFails { put: 2 },
    },
];
