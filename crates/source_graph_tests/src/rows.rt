//! Folders, and the sources of their program P or the refusal.

const A: &str = "unit A; interface implementation end.";

const B: &str = "unit B; interface implementation end.";

/// The files of a folder, by their names, with what they hold.
pub type Held = &'static [(&'static str, &'static str)];

/// A folder, and what gathering program P gives: the sources in order, each with its file, or the refusal.
pub const ROWS: [(Held, &str); 28] = [
    // Depth first, in order of the clauses.
    (
        &[
            ("b.pas", B),
            ("p.pas", "program P; uses A, B; begin end."),
            (
                "a.pas",
                "unit A; interface uses C; implementation uses D; end.",
            ),
            ("d.pas", "unit D; interface implementation end."),
            ("c.pas", "unit C; interface implementation uses B; end."),
        ],
        "P=p.pas A=a.pas C=c.pas B=b.pas D=d.pas ",
    ),
    // A unit that two use is read once.
    (
        &[
            ("p.pas", "program P; uses A, B; begin end."),
            ("a.pas", "unit A; interface uses C; implementation end."),
            ("b.pas", "unit B; interface uses C; implementation end."),
            ("c.pas", "unit C; interface implementation end."),
        ],
        "P=p.pas A=a.pas C=c.pas B=b.pas ",
    ),
    // A circle of uses is no matter here, not even one with the program.
    (
        &[
            ("p.pas", "program P; uses A; begin end."),
            ("a.pas", "unit A; interface uses B; implementation end."),
            (
                "b.pas",
                "unit B; interface uses A, P, B; implementation end.",
            ),
        ],
        "P=p.pas A=a.pas B=b.pas ",
    ),
    // No files of OVERLAY and SYSTEM are looked for.
    (
        &[("p.pas", "program P; uses Overlay, System; begin end.")],
        "P=p.pas ",
    ),
    // Files that are missing.
    (&[], "MissingFile p.pas"),
    (
        &[("p.pas", "program P; uses U; begin end."), ("U.PAS", A)],
        "MissingFile u.pas",
    ),
    (
        &[("p.pas", "program P; {$I Part} begin end.")],
        "MissingFile part.pas",
    ),
    (
        &[("p.pas", "{$I a.inc} begin end."), ("a.inc", "{$I B.Inc}")],
        "MissingFile b.inc",
    ),
    // Files that lie elsewhere, whatever is there.
    (
        &[
            ("p.pas", "program P; {$I ../Secret.pas} begin end."),
            ("../secret.pas", ""),
        ],
        "MissingFile ../secret.pas",
    ),
    (
        &[
            ("p.pas", "program P; {$I /other/x.inc} begin end."),
            ("/other/x.inc", ""),
        ],
        "MissingFile /other/x.inc",
    ),
    (
        &[
            ("p.pas", "program P; {$I SUB\\PART} begin end."),
            ("sub\\part.pas", ""),
        ],
        "MissingFile sub\\part.pas",
    ),
    (
        &[("p.pas", "{$I c:x} begin end."), ("c:x.pas", "")],
        "MissingFile c:x.pas",
    ),
    (
        &[("p.pas", "{$I .} begin end."), (".", "")],
        "MissingFile .",
    ),
    (
        &[("p.pas", "{$I .hidden} begin end."), (".hidden", "")],
        "MissingFile .hidden",
    ),
    (
        &[("p.pas", "{$I a\0.b} begin end."), ("a\0.b", "")],
        "MissingFile a\0.b",
    ),
    // A dot inside a name, or at its end, leads nowhere.
    (
        &[
            ("p.pas", "{$I a..b} {$I c.} program P; begin end."),
            ("a..b", ""),
            ("c.", ""),
        ],
        "P=p.pas ",
    ),
    // Units that are left out, unless they have a file.
    (
        &[("p.pas", "program P; uses Crt; begin end.")],
        "NotInProfile Units p.pas:1:17",
    ),
    (
        &[
            ("p.pas", "program P; uses Dos; begin end."),
            ("dos.pas", "unit Dos; interface implementation end."),
        ],
        "P=p.pas DOS=dos.pas ",
    ),
    (
        &[
            ("p.pas", "program P; {$I u.inc} begin end."),
            ("u.inc", "uses A,\n  Printer;"),
            ("a.pas", A),
        ],
        "NotInProfile Units u.inc:2:3",
    ),
    // Includes within includes; a text is read once, and can be a source too.
    (
        &[
            ("p.pas", "program P; {$I a.inc} {$I a.inc} begin end."),
            ("a.inc", "{$I b.inc}"),
            ("b.inc", "{ nothing }"),
        ],
        "P=p.pas ",
    ),
    (
        &[
            (
                "p.pas",
                "{$IFDEF NONE} {$I a.pas} {$ENDIF} program P; uses A; begin end.",
            ),
            (
                "a.pas",
                "{$IFDEF VER55} unit A; {$ELSE} ? {$ENDIF} interface implementation end.",
            ),
        ],
        "P=p.pas A=a.pas ",
    ),
    // The first fault in order: the program's own, then those of its units.
    (
        &[("p.pas", "program P; uses A; begin end"), ("a.pas", "?")],
        "Syntax p.pas:1:26",
    ),
    (
        &[
            ("p.pas", "program P; uses A, Z; begin end."),
            ("a.pas", "unit A;\ninterface ? implementation end."),
        ],
        "BadToken BadCharacter a.pas:2:11",
    ),
    (
        &[
            ("p.pas", "program P; uses Z, A; begin end."),
            ("a.pas", "unit A;\ninterface ? implementation end."),
        ],
        "MissingFile z.pas",
    ),
    (
        &[("p.pas", "program P; ? {$I gone}")],
        "BadToken BadCharacter p.pas:1:12",
    ),
    // A source without tokens is at fault at its front.
    (
        &[
            ("p.pas", "program P; uses A; begin end."),
            ("a.pas", "{ }\n"),
        ],
        "Syntax a.pas:1:1",
    ),
    // What the lexer and the parser find left out.
    (
        &[("p.pas", "program P; {$N+} begin end.")],
        "NotInProfile Directives p.pas:1:12",
    ),
    (
        &[("p.pas", "program P; label 1; begin end.")],
        "NotInProfile Gotos p.pas:1:12",
    ),
];

/// A folder, and its units in order of initialisation, the program last, or one that lies on a circle.
pub const ORDERS: [(Held, &str); 6] = [
    // The units that a unit uses come before it, those of its interface part first.
    (
        &[
            ("p.pas", "program P; uses A, B; begin end."),
            (
                "a.pas",
                "unit A; interface uses C; implementation uses D; end.",
            ),
            ("b.pas", "unit B; interface uses C; implementation end."),
            ("c.pas", "unit C; interface implementation end."),
            ("d.pas", "unit D; interface implementation end."),
        ],
        "C D A B P ",
    ),
    // Another order than that in which the sources are met.
    (
        &[
            ("p.pas", "program P; uses B, A; begin end."),
            ("a.pas", A),
            ("b.pas", "unit B; interface uses A; implementation end."),
        ],
        "A B P ",
    ),
    // An implementation part may close a circle: the unit that was met first comes last.
    (
        &[
            ("p.pas", "program P; uses A; begin end."),
            ("a.pas", "unit A; interface implementation uses B; end."),
            ("b.pas", "unit B; interface uses A; implementation end."),
        ],
        "B A P ",
    ),
    // An interface part may not.
    (
        &[
            ("p.pas", "program P; uses A; begin end."),
            ("a.pas", "unit A; interface uses A; implementation end."),
        ],
        "Circular A",
    ),
    (
        &[
            ("p.pas", "program P; uses A; begin end."),
            ("a.pas", "unit A; interface implementation uses B; end."),
            (
                "b.pas",
                "unit B; interface uses B; implementation uses A; end.",
            ),
        ],
        "Circular B",
    ),
    // SYSTEM and OVERLAY are no sources.
    (
        &[("p.pas", "program P; uses Overlay, System; begin end.")],
        "P ",
    ),
];
