//! What `read_c` answers to C texts: the program, shown by its layout, or the fault and its place.

use c_printer::print_c;
use c_subset_reader::{CFault, read_c};
use pipe_limits::MOST_C_BYTES;
use std::alloc::Global;
use strm_num::NoMemory;
use text_pieces::{put, put_numbered};

/// The first line of a C text.
const HEADER: &str = "#include \"pipeline.h\"\n";

/// A text without a parameter, a text with parameters and a variable: up to their statements.
const PLAIN: &str = "int pipeline(void) { ";

const NAMED: &str =
    "int pipeline(const uint64_t *a0, uint64_t n0, uint64_t i1) { uint64_t v0 = 0ULL; ";

/// The fault and its place.
fn fault_text(alloc: Global, fault: CFault) -> Result<Vec<u8>, NoMemory> {
    let (kind, at) = match fault {
        CFault::Lex(at) => ("Lex at ", at),
        CFault::TooDeep(at) => ("TooDeep at ", at),
        CFault::Syntax(at) => ("Syntax at ", at),
        CFault::Unbound(at) => ("Unbound at ", at),
        CFault::NoMemory => return Err(NoMemory),
    };
    let mut text = Vec::new(alloc);
    put_numbered(&mut text, kind.as_bytes(), u64::from(at))?;
    Ok(text)
}

/// What is answered to a text: the layout of its program, or its fault.
fn answer(alloc: Global, text: &[u8]) -> Result<Vec<u8>, NoMemory> {
    if text.len() as u64 > MOST_C_BYTES {
        return Err(NoMemory);
    }
    match read_c(alloc, text) {
        Ok(program) => print_c(alloc, &program),
        Err(fault) => fault_text(alloc, fault),
    }
}

/// The parts of a text, one behind another.
fn joined(alloc: Global, parts: &[&str]) -> Result<Vec<u8>, NoMemory> {
    let mut text = Vec::new(alloc);
    for part in parts {
        put(&mut text, part.as_bytes())?;
    }
    Ok(text)
}

/// Whether a text of these parts is refused for this kind of fault, at the place where the last part begins.
fn is_refused(alloc: Global, kind: &str, parts: &[&str; 3], rest: &str) -> Result<bool, NoMemory> {
    let mut text = joined(alloc, parts)?;
    let mut want = Vec::new(alloc);
    put_numbered(&mut want, kind.as_bytes(), text.len() as u64)?;
    put(&mut text, rest.as_bytes())?;
    let got = answer(alloc, text.as_slice())?;
    Ok(got.as_slice() == want.as_slice())
}

/// What stands before the fault and from there on, behind the header.
type Place = (&'static str, &'static str, &'static str);

/// Where no token, blank or comment begins.
const LEX: [Place; 27] = [
    (PLAIN, "", "$ }"),
    ("", "int pipeline", "@(void)"),
    ("", "", "#define x"),
    ("", "int ", "\\ pipeline"),
    (PLAIN, "EMIT(", "\"0\");"),
    (PLAIN, "EMIT(", "'0');"),
    (PLAIN, "EMIT(", "?);"),
    (PLAIN, "v0 ", ".x"),
    (PLAIN, "v0 ", ": v1"),
    (PLAIN, "v0 ", "> v1"),
    (PLAIN, "v0 ", "& v1"),
    (PLAIN, "v0 &&", "& v1"),
    (PLAIN, "v0 ", "| v1"),
    (PLAIN, "", "~v0"),
    (PLAIN, "v0 = ", "00;"),
    (PLAIN, "v0 = ", "01ULL;"),
    (PLAIN, "v0 = ", "2;"),
    (PLAIN, "v0 = ", "1U;"),
    (PLAIN, "v0 = ", "1ULLx;"),
    (PLAIN, "v0 = ", "18446744073709551616ULL;"),
    (PLAIN, "v0 = ", "0x1ULL;"),
    (PLAIN, "v0 ", "// v1"),
    (PLAIN, "/* a */", "// b"),
    (PLAIN, "/* ", "\\ */"),
    (PLAIN, "/* a ", "? */"),
    (PLAIN, "/* ", "\u{e9} */"),
    ("", "int int ((( ", "$"),
];

/// Where no program goes on.
const SYNTAX: [Place; 38] = [
    ("", "", ""),
    ("", "", "void pipeline(void) { return 0; }"),
    ("", "int ", "main(void) { return 0; }"),
    ("", "int pipeline(", ") { return 0; }"),
    ("", "int pipeline(uint64_t ", "i1) { return 0; }"),
    (
        "",
        "int pipeline(uint64_t i0, uint64_t ",
        "i0) { return 0; }",
    ),
    (
        "",
        "int pipeline(const uint64_t *a0, uint64_t ",
        "n1) { return 0; }",
    ),
    (
        "",
        "int pipeline(const uint64_t ",
        "a0, uint64_t n0) { return 0; }",
    ),
    ("", "int pipeline(void", ", uint64_t i0) { return 0; }"),
    (PLAIN, "uint64_t ", "v1 = 0ULL; return 0; }"),
    (PLAIN, "uint64_t v0 = ", "1ULL; return 0; }"),
    (PLAIN, "uint64_t v0 = ", "0; return 0; }"),
    (PLAIN, "return 0; ", ""),
    (PLAIN, "", "}"),
    (PLAIN, "return 1; ", "}"),
    (PLAIN, "return 0; } ", "return 0; }"),
    (PLAIN, "return 0; ", "uint64_t v0 = 0ULL; return 0; }"),
    (PLAIN, "", "f(v0); return 0; }"),
    (NAMED, "v0 = 1ULL ", "+ 2ULL; return 0; }"),
    (NAMED, "v0 = (1ULL + 2ULL ", "+ 3ULL); return 0; }"),
    (NAMED, "v0 = (1ULL ", "< 2ULL); return 0; }"),
    (NAMED, "v0 = ((1ULL ", "< 2ULL) + 3ULL); return 0; }"),
    (NAMED, "v0 = (1ULL", "); return 0; }"),
    (NAMED, "v0 = a0", "; return 0; }"),
    (NAMED, "v0 = ", "/* 1ULL; return 0; }"),
    (NAMED, "v0 = ", "1; return 0; }"),
    (NAMED, "if (1ULL ", "+ 2ULL) { } else { } return 0; }"),
    (NAMED, "if ((1ULL + 2ULL)", ") { } else { } return 0; }"),
    (NAMED, "if (!", "v0) { } else { } return 0; }"),
    (NAMED, "if ", "v0 { } else { } return 0; }"),
    (NAMED, "if (v0 < v0) { } ", "return 0; }"),
    (NAMED, "while (", "1ULL) { } return 0; }"),
    (NAMED, "while (1) { ", "v0 = 1ULL; } return 0; }"),
    (NAMED, "EMIT ", "v0; return 0; }"),
    (NAMED, "ENDROW(", "v0); return 0; }"),
    (NAMED, "return ", "(0); return 0; }"),
    (PLAIN, "", "v4294967296 = 0ULL; return 0; }"),
    (PLAIN, "", "v00 = 0ULL; return 0; }"),
];

/// Where a name isn't declared.
const UNBOUND: [Place; 22] = [
    (PLAIN, "EMIT(", "v0); return 0; }"),
    (PLAIN, "", "v0 = 0ULL; return 0; }"),
    (PLAIN, "", "v0 = v1; return 0; }"),
    (NAMED, "EMIT(", "v1); return 0; }"),
    (NAMED, "v0 = ", "v1; return 0; }"),
    (NAMED, "EMIT(", "i0); return 0; }"),
    (NAMED, "EMIT(", "i2); return 0; }"),
    (NAMED, "EMIT(", "n1); return 0; }"),
    (NAMED, "EMIT(", "n2); return 0; }"),
    (NAMED, "v0 = ", "a1[0ULL]; return 0; }"),
    (NAMED, "v0 = ", "a2[v9]; return 0; }"),
    (NAMED, "v0 = a0[", "v1]; return 0; }"),
    (NAMED, "if (v0 < ", "v1) { } else { } return 0; }"),
    (NAMED, "if (v0 < v0) { } else { EMIT(", "v7); } return 0; }"),
    (
        NAMED,
        "if ((v0 < v0) && (n0 == ",
        "n1)) { } else { } return 0; }",
    ),
    (NAMED, "if (!(v0 == ", "i0)) { } else { } return 0; }"),
    (
        NAMED,
        "while (1) { if (v0 < ",
        "v1) { } else { break; } } return 0; }",
    ),
    (
        NAMED,
        "while (1) { if (v0 < v0) { } else { break; } EMIT(",
        "v3); } return 0; }",
    ),
    (NAMED, "EMIT((v0 + ", "v4294967295)); return 0; }"),
    (NAMED, "EMIT(((i1 ^ n0) * ", "i0)); return 0; }"),
    (NAMED, "return 0; EMIT(", "v1); return 0; }"),
    (NAMED, "EMIT(v0); /* v1 */ EMIT(", "v1); return 0; }"),
];

#[test]
fn faults_stand_at_their_places(rt: HostRuntime) {
    for (kind, table) in [
        ("Lex at ", LEX.as_slice()),
        ("Syntax at ", SYNTAX.as_slice()),
        ("Unbound at ", UNBOUND.as_slice()),
    ] {
        for (first, before, rest) in table {
            let is_so = is_refused(rt.alloc(), kind, &[HEADER, first, before], rest).expect(
                &rt, "memory",
            );
            assert!(rt; is_so, "{kind}{first}{before}: {rest}");
        }
    }
}

/// What stands before brackets, how many are open behind it, and the bracket.
type Deep = (&'static str, u32, &'static str);

const TOO_DEEP: [Deep; 20] = [
    ("", 0, "("),
    ("", 0, "{"),
    ("int pipeline(void) ", 0, "{"),
    ("int pipeline(void) { ", 1, "("),
    ("int pipeline(void) { EMIT(", 2, "("),
    ("(((", 3, "("),
    ("()", 0, "("),
    (")", 0, "("),
    ("))))", 0, "("),
    ("}}{", 1, "("),
    ("{}{}{", 1, "{"),
    ("[[[", 0, "("),
    ("int pipeline(void) { if ", 1, "("),
    ("while (1) { if ", 1, "("),
    ("/* ((( */", 0, "("),
    ("v0 = v1 ", 0, "("),
    (";;;;", 0, "{"),
    ("(v0)) (", 1, "("),
    ("{ ( ) ", 1, "("),
    ("int pipeline(uint64_t i0) { return 0; } ", 0, "{"),
];

/// How many brackets may be open.
const MOST_OPEN: u32 = 1024;

/// Whether a text of such brackets is refused at the one that is too many.
fn is_too_deep(alloc: Global, row: &Deep) -> Result<bool, NoMemory> {
    let (before, open, bracket) = *row;
    let mut text = joined(alloc, &[HEADER, before])?;
    for _ in open..MOST_OPEN {
        put(&mut text, bracket.as_bytes())?;
    }
    let mut want = Vec::new(alloc);
    put_numbered(&mut want, b"TooDeep at ", text.len() as u64)?;
    put(&mut text, bracket.as_bytes())?;
    put(&mut text, b" and more")?;
    let got = answer(alloc, text.as_slice())?;
    Ok(got.as_slice() == want.as_slice())
}

#[test]
fn too_many_brackets(rt: HostRuntime) {
    for row in TOO_DEEP {
        let is_so = is_too_deep(rt.alloc(), &row).expect(&rt, "memory");
        assert!(rt; is_so, "{}", row.0);
    }
}

/// Texts without the line of the header.
const HEADLESS: [&str; 6] = [
    "",
    "int pipeline(void) { return 0; }",
    "#include <pipeline.h>\nint pipeline(void) { return 0; }",
    " #include \"pipeline.h\"\nint pipeline(void) { return 0; }",
    "#include \"pipeline.h\"",
    "#include \"pipeline.h\"\r int pipeline(void) { $ return 0; }",
];

#[test]
fn texts_without_a_header(rt: HostRuntime) {
    for text in HEADLESS {
        let got = answer(rt.alloc(), text.as_bytes()).expect(&rt, "memory");
        assert!(rt; got.as_slice() == b"Syntax at 0".as_slice(), "{text}");
    }
}

/// A text in its layout: it counts to two.
const COUNTING: &str = "#include \"pipeline.h\"
int pipeline(void) {
  uint64_t v0 = 0ULL;
  uint64_t v1 = 0ULL;
  v0 = 0ULL;
  while (1) {
    if (v0 < 2ULL) { } else { break; }
    EMIT(v0);
    ENDROW();
    v0 = (v0 + 1ULL);
  }
  return 0;
}
";

/// A text in its layout, whose division is by zero.
const DIVIDING: &str = "#include \"pipeline.h\"
int pipeline(void) {
  uint64_t v0 = 0ULL;
  v0 = (1ULL / 0ULL);
  return 0;
}
";

/// A text in its layout, which writes its input and -1, and traps.
const TRAPPING: &str = "#include \"pipeline.h\"
int pipeline(uint64_t i0) {
  EMIT(i0);
  EMIT((0ULL - 1ULL));
  return 1;
  return 0;
}
";

/// A text with each form.
const EACH_FORM: &str = "#include \"pipeline.h\"
int pipeline(const uint64_t *a0, uint64_t n0, uint64_t i1) {
  uint64_t v0 = 0ULL;
  uint64_t v1 = 0ULL;
  v0 = ((n0 * i1) % (18446744073709551615ULL ^ v1));
  v1 = a0[(v0 - v0)];
  if (((v0 < v1) && (v0 == 0ULL)) || (!((v0 / 2ULL) == v1))) {
    return 0;
  } else {
    if (v0 < v1) {
    } else {
      ENDROW();
    }
  }
  return 0;
}
";

/// The same in other blanks and with comments.
const SAME_FORMS: &str = "#include \"pipeline.h\"\r
/* a comment * / // ** */int pipeline(const\tuint64_t*a0,uint64_t n0,uint64_t/**/i1){uint64_t
v0=0ULL;uint64_t v1=0ULL;v0=((n0*i1)%(18446744073709551615ULL^v1));v1=a0[(v0-v0)];
if(((v0<v1)&&(v0==0ULL))||(!((v0/2ULL)==v1))){return 0;}else{if(v0<v1){}else{ENDROW();}}return 0;}";

/// A line in place of the division, and what is answered then.
const OTHER_LINES: [(&str, &str); 3] = [
    ("  f(v0);\n", "Syntax at 67"),
    ("  v0 = 1ULL + 2ULL;\n", "Syntax at 77"),
    ("  EMIT(v1);\n", "Unbound at 72"),
];

/// Whether a text with this line is answered so.
fn is_line_answered(alloc: Global, line: &str, want: &str) -> Result<bool, NoMemory> {
    let first = "int pipeline(void) {\n  uint64_t v0 = 0ULL;\n";
    let text = joined(alloc, &[HEADER, first, line, "  return 0;\n}\n"])?;
    let got = answer(alloc, text.as_slice())?;
    Ok(got.as_slice() == want.as_bytes())
}

#[test]
fn a_line_is_refused_at_its_place(rt: HostRuntime) {
    for (line, want) in OTHER_LINES {
        let is_so = is_line_answered(rt.alloc(), line, want).expect(&rt, "memory");
        assert!(rt; is_so, "{line}");
    }
}

/// Texts, and the layouts of their programs.
const READ: [(&str, &str); 5] = [
    (COUNTING, COUNTING),
    (DIVIDING, DIVIDING),
    (TRAPPING, TRAPPING),
    (EACH_FORM, EACH_FORM),
    (SAME_FORMS, EACH_FORM),
];

#[test]
fn texts_are_read_back(rt: HostRuntime) {
    for (text, layout) in READ {
        let got = answer(rt.alloc(), text.as_bytes()).expect(&rt, "memory");
        assert!(rt; got.as_slice() == layout.as_bytes(), "{text}");
    }
}

/// Whether a word in so many parentheses is written.
fn is_read_at_depth(alloc: Global, depth: u32) -> Result<bool, NoMemory> {
    let mut text = joined(alloc, &[HEADER, PLAIN, "EMIT("])?;
    for _ in 0..depth {
        put(&mut text, b"(")?;
    }
    put(&mut text, b"0ULL")?;
    for _ in 0..depth {
        put(&mut text, b" + 1ULL)")?;
    }
    put(&mut text, b"); return 0; }")?;
    let got = answer(alloc, text.as_slice())?;
    Ok(got.as_slice().ends_with(b"1ULL));\n  return 0;\n}\n"))
}

#[test]
fn brackets_at_the_limit(rt: HostRuntime) {
    for (depth, want) in [(1, true), (1022, true), (1023, false)] {
        let is_read = is_read_at_depth(rt.alloc(), depth).expect(&rt, "memory");
        assert!(rt; is_read == want, "{depth}");
    }
}
