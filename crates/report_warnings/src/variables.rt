//! Variables that nothing uses, and variables that look like something else.

use crate::kinds::{Warning, add_place, begun};
use cranelift_isle::syntax::{Def, Ident};
use report_names::definitions::declaration_of;
use report_names::meanings::{Meant, meant_by};
use report_names::mentions::{Mention, MentionKind, Mentions, Need};
use report_print::report::{Place, Report};
use std::alloc::{AllocError, Global};

/// Adds a warning for each variable of a rule's patterns whose name looks like something else, as one of these constants, and for each other variable that
/// stands nowhere but where it is bound. A variable whose name begins with `_` is meant so. The variable in `(fits_in_64 ty)` is no
/// more than the name of what is tested.
pub(crate) fn add_variables(
    alloc: Global,
    reports: &mut Vec<Report>,
    defs: &[Def],
    constants: &[(&Ident, &Ident)],
    names: &Mentions<'_>,
) -> Result<(), AllocError> {
    for mention in names.names.iter().filter(|mention| is_bound_there(mention)) {
        if let Some(meant) = meant_by(alloc, defs, constants, mention)? {
            reports.push(unlike(alloc, mention, &meant)?)?;
        } else if !mention.is_used
            && !is_tested(defs, mention)
            && !mention.text().starts_with('_')
        {
            reports.push(unused(alloc, mention)?)?;
        }
    }
    Ok(())
}

fn is_bound_there(mention: &Mention<'_>) -> bool {
    mention.kind == MentionKind::Variable && mention.defines
}

// Whether a variable is the argument of an extractor that takes a value and gives one of the same type.
fn is_tested(defs: &[Def], mention: &Mention<'_>) -> bool {
    let Need::Argument(term, _) = mention.need else {
        return false;
    };
    match declaration_of(defs, term) {
        Some(decl) if mention.in_pattern => match decl.arg_tys.as_slice() {
            [ty] => ty.0.as_str() == decl.ret_ty.0.as_str(),
            _ => false,
        },
        _ => false,
    }
}

// The warning of a variable that looks like something else, with what to write for that.
fn unlike(alloc: Global, mention: &Mention<'_>, meant: &Meant) -> Result<Report, AllocError> {
    let name = mention.text();
    let message = format!(in alloc; "`{name}` is a variable here, and matches any value")?;
    let mut report = begun(alloc, Warning::Name, message);
    add_place(alloc, &mut report, mention.name.1, "bound here")?;
    meant.add_to(&mut report, mention)?;
    Ok(report)
}

// The warning of a variable that nothing uses.
fn unused(alloc: Global, mention: &Mention<'_>) -> Result<Report, AllocError> {
    let (name, pos) = (mention.text(), mention.name.1);
    let message = format!(in alloc; "`{name}` is never used")?;
    let mut report = begun(alloc, Warning::Unused, message);
    add_place(alloc, &mut report, pos, "bound here, and used nowhere")?;
    let help = match mention.behind {
        Some(behind) => {
            let title = format!(in alloc; "Leave out `{name} @`")?;
            report.add_fix(title, Place::UpTo(pos, behind), String::new(alloc))?;
            format!(in alloc;
                "leave out `{name} @` if the name isn't needed, or write _{name} to keep it"
            )?
        }
        None => {
            let place = Place::Name(pos, name.len());
            let title = String::from_str(alloc, "Write `_`")?;
            report.add_fix(title, place, String::from_str(alloc, "_")?)?;
            format!(in alloc; "write _ if the value isn't needed, or _{name} to keep the name")?
        }
    };
    report.add_note("help", help)?;
    let title = format!(in alloc; "Write `_{name}`")?;
    let written = format!(in alloc; "_{name}")?;
    report.add_fix(title, Place::Name(pos, name.len()), written)?;
    Ok(report)
}
