//! Trees as graphs in Graphviz's notation.

ghost use Rattle.std.specs.Prelude.{◌<◌, string_len, IfOk};

use cranelift_isle::lower::{Lowered, LoweredTerm};
use cranelift_isle::serialize::{Block, ControlFlow, EvalStep, MatchArm};
use cranelift_isle::syntax::Pos;
use cranelift_isle::trie_again::{BindingId, Rule};
use report_names::names::NameTables;
use report_names::site_words::{push_head, site_texts, text_at};
use report_print::lines::{FileLines, file_name};
use std::alloc::{AllocError, Global};

/// The tree of a term as a directed graph: a node for the term and for each step, with what it binds and what it looks at in
/// words. A full edge leads from a test to the first step of what follows where it is met, from a match with what the value
/// then is. A dashed one leads to the next step of the block, which follows where the test fails or what follows it has run
/// through. A return is a box with the name of its rule, where it has one, and its file and line.
pub(crate) fn graph_of(
    alloc: Global,
    lines: &FileLines<'_>,
    lowered: &Lowered,
    term: &LoweredTerm,
) -> Result<String, AllocError>
    ensures { IfOk result (λ text. 0 < string_len text) }
{
    let names = NameTables {
        tyenv: &lowered.tyenv,
        terms: &lowered.termenv.terms,
    };
    let texts = site_texts(alloc, names, &term.rules.bindings)?;
    let drawing = Drawing {
        alloc,
        lines,
        names,
        rules: &term.rules.rules,
        texts: &texts,
    };
    drawing.draw(names.term(term.id), &term.block)
}

// What the drawing of a tree asks.
#[derive(Clone, Copy)]
struct Drawing<'a, 'f> {
    alloc: Global,
    lines: &'a FileLines<'f>,
    names: NameTables<'a>,
    rules: &'a [Rule],
    texts: &'a [String],
}

// A graph as far as it is drawn.
struct Graph {
    out: String,
    // The number of the next node.
    next: u64,
}

impl Drop for Graph {
    fn drop(self) {
        let Graph { out: _, next: _ } = self;
    }
}

impl Graph {
    // Adds a node with this label, and answers its number.
    fn node(&mut self, label: &str, shape: &str) -> Result<u64, AllocError> {
        let number = self.next;
        self.next = number.saturating_add(1);
        write!(self.out, "  n{number} [label=")?;
        push_quoted(&mut self.out, label)?;
        write!(self.out, ", shape={shape}];\n")?;
        Ok(number)
    }

    // Adds an edge where a test is met.
    fn edge(&mut self, from: u64, to: u64, label: &str) -> Result<(), AllocError> {
        write!(self.out, "  n{from} -> n{to}")?;
        if !label.is_empty() {
            self.out.push_str(" [label=")?;
            push_quoted(&mut self.out, label)?;
            self.out.push(']')?;
        }
        self.out.push_str(";\n")
    }

    // Adds an edge to the next step of a block.
    fn next_edge(&mut self, from: u64, to: u64) -> Result<(), AllocError> {
        write!(self.out, "  n{from} -> n{to} [style=dashed];\n")
    }
}

impl<'a, 'f> Drawing<'a, 'f> {
    // The graph of the tree of a term of this name.
    fn draw(&self, name: &str, block: &Block) -> Result<String, AllocError>
        ensures { IfOk result (λ text. 0 < string_len text) }
    {
        let mut graph = Graph {
            out: String::from_str(self.alloc, "digraph ")?,
            next: 0,
        };
        push_quoted(&mut graph.out, name)?;
        graph.out.push_str(" {\n")?;
        let label = format!(in self.alloc; "term {name}")?;
        let root = graph.node(&label, "plain")?;
        self.push_block(&mut graph, root, "", block)?;
        let out = graph.out.as_str();
        format!(in self.alloc; "{out}}}\n")
    }

    // Adds the steps of a block that a node leads to by an edge with this label.
    #[cycle(draw)]
    fn push_block(
        &self,
        graph: &mut Graph,
        from: u64,
        label: &str,
        block: &Block,
    ) -> Result<(), AllocError> {
        let mut last = None;
        for step in &block.steps {
            let node = self.push_node(graph, step)?;
            push_edge(graph, from, last, label, node)?;
            self.push_inside(graph, node, &step.check)?;
            last = Some(node);
        }
        Ok(())
    }

    // Adds what follows a test that is met.
    #[cycle(draw)]
    fn push_inside(
        &self,
        graph: &mut Graph,
        node: u64,
        check: &ControlFlow,
    ) -> Result<(), AllocError> {
        match check {
            ControlFlow::Match { arms, .. } => self.push_arms(graph, node, arms),
            ControlFlow::Equal { body, .. } => self.push_block(graph, node, "equal", body),
            ControlFlow::Loop { body, .. } => self.push_block(graph, node, "each", body),
            ControlFlow::Return { .. } => Ok(()),
        }
    }

    #[cycle(draw)]
    fn push_arms(&self, graph: &mut Graph, node: u64, arms: &[MatchArm]) -> Result<(), AllocError> {
        for arm in arms {
            let label = self.arm_label(arm)?;
            self.push_block(graph, node, &label, &arm.body)?;
        }
        Ok(())
    }

    // What the value is in an arm.
    fn arm_label(&self, arm: &MatchArm) -> Result<String, AllocError> {
        let mut label = String::new(self.alloc);
        push_head(&mut label, self.names, arm.constraint)?;
        Ok(label)
    }

    fn push_node(&self, graph: &mut Graph, step: &EvalStep) -> Result<u64, AllocError> {
        let mut label = String::new(self.alloc);
        for site in &step.bind_order {
            let text = text_at(self.texts, *site);
            write!(label, "bind {text}\n")?;
        }
        self.push_check(&mut label, &step.check)?;
        graph.node(&label, shape_of(&step.check))
    }

    // Adds what a step looks at, or what it returns.
    fn push_check(&self, label: &mut String, check: &ControlFlow) -> Result<(), AllocError> {
        match check {
            ControlFlow::Match { source, .. } => self.push_line(label, "match ", *source),
            ControlFlow::Equal { a, b, .. } => {
                self.push_line(label, "equal ", *a)?;
                self.push_line(label, " and ", *b)
            }
            ControlFlow::Loop { result, .. } => self.push_line(label, "for ", *result),
            ControlFlow::Return { pos, result } => {
                self.push_line(label, "return ", *result)?;
                self.push_rule(label, *pos, *result)
            }
        }
    }

    fn push_line(&self, label: &mut String, word: &str, site: BindingId) -> Result<(), AllocError> {
        label.push_str(word)?;
        label.push_str(text_at(self.texts, site))
    }

    // Adds a line with the name of the rule of a return, where it has one, and its file and line.
    fn push_rule(&self, label: &mut String, pos: Pos, site: BindingId) -> Result<(), AllocError> {
        label.push('\n')?;
        let name = self.rule_name(pos, site);
        if !name.is_empty() {
            write!(label, "{name} at ")?;
        }
        let file = file_name(self.lines.files(), pos.file);
        let line = self.lines.place(pos).line;
        write!(label, "{file}:{line}")
    }

    // The name of the rule of a return, or the empty text.
    fn rule_name(&self, pos: Pos, site: BindingId) -> &'a str {
        for rule in self.rules {
            if rule.pos == pos && rule.result == site {
                return match rule.name {
                    Some(name) => self.names.sym(name),
                    None => "",
                };
            }
        }
        ""
    }
}

// Adds the edge to a step, from the last one of its block, or where it is the first from the node that leads to the block.
fn push_edge(
    graph: &mut Graph,
    from: u64,
    last: Option<u64>,
    label: &str,
    to: u64,
) -> Result<(), AllocError> {
    match last {
        Some(last) => graph.next_edge(last, to),
        None => graph.edge(from, to, label),
    }
}

fn shape_of(check: &ControlFlow) -> &'static str {
    match check {
        ControlFlow::Return { .. } => "box",
        ControlFlow::Match { .. } | ControlFlow::Equal { .. } | ControlFlow::Loop { .. } =>
            "ellipse",
    }
}

// Adds a text between quotation marks.
fn push_quoted(out: &mut String, text: &str) -> Result<(), AllocError> {
    out.push('"')?;
    for c in text.chars() {
        push_char(out, c)?;
    }
    out.push('"')
}

// Adds a character of a text between quotation marks.
fn push_char(out: &mut String, c: char) -> Result<(), AllocError> {
    match c {
        '"' => out.push_str("\\\""),
        '\\' => out.push_str("\\\\"),
        '\n' => out.push_str("\\n"),
        _ => out.push(c),
    }
}
