//! The samples: texts of definitions, by name.

ghost use Rattle.std.specs.Prelude.{◌≡◌, is_some};
ghost use Rattle.std.specs.List.{list_any};
ghost use Rattle.std.specs.Str.{bytes_eq};
ghost use Rattle.report_queries.specs.Samples.{is_sample};

use std::alloc::{AllocError, Global};

/// The samples, the name and the text of each.
pub const SAMPLES: [(&str, &str); 28] = [
    ("empty", EMPTY),
    ("fall", FALL),
    ("types", TYPES),
    ("builtin", BUILTIN),
    ("const-eq", CONST_EQ),
    ("variant-eq", VARIANT_EQ),
    ("cycle", CYCLE),
    ("cycle2", CYCLE2),
    ("cycle3", CYCLE3),
    ("conflict", CONFLICT),
    ("overlap", OVERLAP),
    ("shadow", SHADOW),
    ("prio", PRIO),
    ("equal", EQUAL),
    ("below", BELOW),
    ("wrap", WRAP),
    ("extract", EXTRACT),
    ("surplus", SURPLUS),
    ("endless", ENDLESS),
    ("iflet", IFLET),
    ("partial", PARTIAL),
    ("effects", EFFECTS),
    ("unused", UNUSED),
    ("used", USED),
    ("multi", MULTI),
    ("multi-ext", MULTI_EXT),
    ("shared", SHARED),
    ("ties", TIES),
];

/// The names of the samples, one a line.
///
/// # Errors
///
/// Where memory is refused.
pub fn sample_names(alloc: Global) -> Result<String, AllocError> {
    let mut names = String::new(alloc);
    for (name, _) in SAMPLES {
        write!(names, "{name}\n")?;
    }
    Ok(names)
}

/// The text of the sample with this name, or None where there is no such sample.
pub fn sample_text(name: &str) -> Option<&'static str>
    ensures { is_some result ≡ is_sample name.now }
{
    text_among(&SAMPLES, name)
}

fn text_among(samples: &[(&'static str, &'static str)], name: &str) -> Option<&'static str>
    ensures { is_some result ≡ list_any (λ s. bytes_eq s.0.now name.now) samples.now }
{
    for sample in samples {
        if sample.0 == name {
            return Some(sample.1);
        }
    }
    None
}

const EMPTY: &str = "";

const FALL: &str = "(decl f (u8) u8)
(rule 1 (f 1) 10)
(rule (f x) x)";

const TYPES: &str = "(type UImm8 (primitive UImm8))
(type A extern (enum (B (f1 u32) (f2 u32)) (C (f1 u32))))";

const BUILTIN: &str = "(type u8 (primitive X))";

const CONST_EQ: &str = "(decl f (u8 u8) u8)
(rule (f x @ 2 x) x)";

const VARIANT_EQ: &str = "(type T (enum (A (v u8))))
(decl g (T T) T)
(rule (g x @ (T.A _) x) x)";

const CYCLE: &str = "(type T (enum (A (v T)) (Z)))
(decl f (T) u8)
(rule (f (and x (T.A x))) 1)";

const CYCLE2: &str = "(type T (enum (A (v T)) (Z)))
(decl f (T) u8)
(rule (f (and x (T.A (and x (T.A x))))) 1)";

const CYCLE3: &str = "(type T (enum (A (v T)) (Z)))
(decl f (T T) u8)
(rule (f (and x (T.A y)) (and y (T.A x))) 1)";

const CONFLICT: &str = "(decl f (u8 u8) u8)
(rule (f x @ 2 (and x 3)) 1)";

const OVERLAP: &str = "(decl f (u8) u8)
(rule (f 1) 10)
(rule (f x) x)";

const SHADOW: &str = "(decl f (u8) u8)
(rule 1 (f x) x)
(rule (f 1) 10)";

const PRIO: &str = "(decl f (u8 u8) u8)
(rule 2 (f 1 5) 12)
(rule 1 (f _ 2) 11)
(rule (f 1 _) 10)";

const EQUAL: &str = "(decl f (u8 u8) u8)
(rule 1 (f x y) x)
(rule (f x x) 7)";

const BELOW: &str = "(decl f (u8 u8 u8) u8)
(rule 1 (f _ _ _) 1)
(rule (f 1 x x) 2)";

const WRAP: &str = "(decl f (u8) u8)
(rule (f 255) 1)
(rule (f -1) 2)";

const EXTRACT: &str = "(decl e (u8) u8)
(extern extractor e e_fn)
(decl f (u8) u8)
(rule 1 (f (e 1)) 10)
(rule (f (e x)) x)";

const SURPLUS: &str = "(type T (enum (A (v u8))))
(decl g (T T) u8)
(rule 1 (g _ _) 1)
(rule (g x @ (T.A v) x) v)";

const ENDLESS: &str = "(type A (primitive A))
(type B (primitive B))
(decl k (A) A)
(extern extractor k k_fn)
(decl conv (A) B)
(extractor (conv x) (k x))
(convert A B conv)
(decl f (B) u8)
(rule (f (k _)) 1)";

const IFLET: &str = "(decl pure e (u8) u8)
(extern extractor e e_fn)
(decl f (u8) u8)
(rule (f x) (if-let y (e x)) y)";

const PARTIAL: &str = "(decl partial g (u8) u8)
(extern constructor g g_fn)
(decl partial f (u8) u8)
(rule 1 (f 1) (g 1))
(rule (f _) 7)";

const EFFECTS: &str = "(type T (enum (P (a u8) (b u8))))
(decl pure partial pp (u8) u8)
(extern constructor pp pp_fn)
(decl im (u8) u8)
(extern constructor im im_fn)
(decl partial f (u8) T)
(rule (f x) (T.P (pp x) (im x)))";

const UNUSED: &str = "(decl pure partial pp (u8) u8)
(extern constructor pp pp_fn)
(decl f (u8) u8)
(rule (f x) (if-let _ (let ((y u8 (pp x))) x)) 7)";

const USED: &str = "(decl pure partial pp (u8) u8)
(extern constructor pp pp_fn)
(decl f (u8) u8)
(rule (f x) (if-let _ (let ((y u8 (pp x))) y)) 7)";

const MULTI: &str = "(decl pure multi m (u8) u8)
(extern constructor m m_fn)
(decl multi f (u8) u8)
(rule (f x) (m x))
(rule (f 1) 9)";

const MULTI_EXT: &str = "(decl multi me (u8) u8)
(extern extractor me me_fn)
(decl f (u8) u8)
(rule (f (me x)) x)";

const SHARED: &str = "(decl pure p (u8) u8)
(extern constructor p p_fn)
(decl multi f (u8) u8)
(rule (f x) (p x))
(rule (f x) (p (p x)))";

const TIES: &str = "(decl multi f (u8 u8 u8 u8 u8) u8)
(rule (f _ _ x x _) 1)
(rule (f _ _ x _ x) 2)
(rule (f x x _ _ _) 3)";
