//! Texts.

use crate::inside::Inside;
use crate::needs::Need;
use crate::printer::Printer;
use rhai_ast::{Expr, Stmt};
use rhai_base::ImmutableString;

impl<'t> Printer<'t> {
    /// A text with blocks.
    #[cycle(print)]
    pub(crate) fn text(&self, parts: &'t [Expr], inside: Inside) {
        if parts.is_empty() {
            return self.put("\"\"");
        }
        self.put("`");
        let mut follows_text = false;
        for (index, part) in parts.iter().enumerate() {
            let may_last = parts.len() > 1 && !follows_text;
            match part {
                Expr::StringConstant(text, _) if may_last && is_lasting(text) => {
                    self.back_ticked(text.as_str(), index == 0);
                    follows_text = true;
                }
                _ => {
                    self.part(part, inside);
                    follows_text = false;
                }
            }
        }
        self.put("`");
    }

    /// A part of a text that is a block, or stands in one.
    #[cycle(print)]
    fn part(&self, part: &'t Expr, inside: Inside) {
        self.put("$");
        let inside = inside.valued(true);
        match part {
            Expr::Stmt(block) => match block.get().statements() {
                [only @ (Stmt::Expr(_) | Stmt::FnCall(..))] => {
                    self.put("{");
                    self.statement(only, inside);
                    self.put("}");
                }
                _ => self.block(block.get(), inside),
            },
            _ => {
                self.put("{");
                self.expr(part, Need::Start, inside.past(1));
                self.put("}");
            }
        }
    }

    /// A part of a text in back-ticks, which is written as it stands; a line end behind the first back-tick is left out
    /// of a text, so one that begins with a line end has another before it.
    fn back_ticked(&self, text: &str, is_first: bool) {
        if is_first && text.starts_with(['\n', '\r']) {
            self.put("\n");
        }
        for letter in text.chars() {
            if letter == '`' {
                self.put("`");
            }
            self.put_char(letter);
        }
    }

    /// A text in quotes.
    pub(crate) fn quoted(&self, text: &str) {
        self.put("\"");
        for letter in text.chars() {
            self.escaped(letter, '"');
        }
        self.put("\"");
    }

    /// A character in quotes.
    pub(crate) fn character(&self, letter: char) {
        self.put("'");
        self.escaped(letter, '\'');
        self.put("'");
    }

    /// A character between these quotes.
    fn escaped(&self, letter: char, quote: char) {
        match letter {
            '\n' => self.put("\\n"),
            '\r' => self.put("\\r"),
            '\t' => self.put("\\t"),
            '\\' => self.put("\\\\"),
            _ if letter == quote => {
                self.put("\\");
                self.put_char(letter);
            }
            '\u{0}'..='\u{1f}' | '\u{7f}' => self.coded(letter),
            _ => self.put_char(letter),
        }
    }

    /// A character by the two digits of its code.
    fn coded(&self, letter: char) {
        let code = u32::from(letter);
        self.put("\\x");
        self.put_char(char::from_digit(code / 16 % 16, 16).unwrap_or('0'));
        self.put_char(char::from_digit(code % 16, 16).unwrap_or('0'));
    }
}

/// Whether a part of a text stays one as it is written.
fn is_lasting(text: &ImmutableString) -> bool {
    let text = text.as_str();
    !text.is_empty() && !text.contains("${") && !text.contains("\r\n")
}
