//! Where a parser stands in a text.
use crate::fault::{Expected, Language, TextFault};
use crate::keywords::{Keyword, is_reserved, is_reserved_in_strict, keyword_of, spelling_of};
use crate::waiting::{Part, Waiting};
use std::alloc::Global;
use swc_tree_node::Node;
use text_characters::past_byte;
use text_lexer::{
    Comments, Fault, Goal, Mark, Token, plain_mark, plain_name, skip_blank, token_at,
};

/// What the grammar's parameters are at a place, and whether the code is strict.
#[derive(Clone, Copy)]
pub struct Context {
    pub has_in: bool,
    pub has_await: bool,
    pub has_yield: bool,
    pub is_strict: bool,
}

/// What stands behind a token.
#[derive(Clone, Copy)]
pub struct Next<'a> {
    /// Whether a line ends before it.
    pub ended: bool,
    pub token: Token<'a>,
    pub keyword: Option<Keyword>,
    rest: &'a [u8],
}

/// A comma that closes a list, behind an element before which dots stand. A literal may have one, and a pattern may not
/// (ECMA-262, 13.15.5, 14.3.3 and 15.1).
#[derive(Clone, Copy)]
pub(crate) struct LastComma {
    /// How many bytes are before it.
    pub(crate) at: usize,
    /// What stands behind it.
    pub(crate) close: Mark,
}

/// A place in a text, with the token there, and the nodes that are to be parts of others.
#[derive(Drop)]
pub struct Parser<'a> {
    pub alloc: Global,
    comments: Comments,
    /// The text from the token on, and what is left behind the token.
    here: &'a [u8],
    rest: &'a [u8],
    token: Token<'a>,
    /// The word that the token is, if the grammar knows it.
    keyword: Option<Keyword>,
    /// How many bytes are left behind the last token.
    left_behind: usize,
    len: usize,
    /// Whether a line has ended before the token.
    ended: bool,
    pub is_module: bool,
    pub context: Context,
    /// Where an arrow function may begin.
    pub arrow_at: usize,
    /// How many properties with a default are in literals that are not read as patterns yet.
    pub covers: usize,
    /// Where the last of them has its default.
    pub cover_at: usize,
    pub nodes: Vec<Node>,
    /// What is known of each of these.
    pub(crate) parts: Vec<Part>,
    /// What is below them and waits to be laid, of one after another.
    pub(crate) waiting: Vec<Waiting>,
    /// How many of the nodes, of the first, are laid for sure.
    pub(crate) laid: usize,
    /// How high a node may be.
    pub(crate) height: u32,
    /// The texts of the templates that are being read.
    pub texts: Vec<Node>,
    /// The last commas behind elements with dots, and in spans where these elements end.
    pub(crate) last_commas: Vec<LastComma>,
    pub(crate) comma_ends: Vec<u32>,
    /// The first thing at fault.
    fault: Option<TextFault>,
}

fn keyword_in(token: Token<'_>) -> Option<Keyword> {
    match token {
        Token::Name(name) => keyword_of(name),
        _ => None,
    }
}

fn begins_decorator(text: &[u8]) -> bool {
    match text {
        [first, ..] => *first == b'@',
        [] => false,
    }
}

/// Whether a token is a punctuator.
pub fn is_mark(token: Token<'_>, mark: Mark) -> bool {
    match token {
        Token::Mark(here) => here == mark,
        _ => false,
    }
}

/// Whether a token begins the key of a property or of a member.
pub fn begins_key(token: Token<'_>) -> bool {
    match token {
        Token::Name(_)
        | Token::EscapedName(_)
        | Token::PrivateName(_)
        | Token::Number(_)
        | Token::BigInt(_)
        | Token::Str(_) => true,
        Token::Mark(mark) => mark == Mark::LeftBracket,
        _ => false,
    }
}

impl<'a> Parser<'a> {
    /// A parser before a text. No node that it makes is higher than `height`.
    pub fn new(alloc: Global, text: &'a [u8], is_module: bool, height: u32) -> Parser<'a> {
        Parser {
            alloc,
            comments: if is_module {
                Comments::Module
            } else {
                Comments::Script
            },
            here: text,
            rest: text,
            token: Token::End,
            keyword: None,
            left_behind: text.len(),
            len: text.len(),
            ended: false,
            is_module,
            context: Context {
                has_in: true,
                has_await: is_module,
                has_yield: false,
                is_strict: is_module,
            },
            arrow_at: usize::MAX,
            covers: 0,
            cover_at: 0,
            nodes: Vec::new(alloc),
            parts: Vec::new(alloc),
            waiting: Vec::new(alloc),
            laid: 0,
            height,
            texts: Vec::new(alloc),
            last_commas: Vec::new(alloc),
            comma_ends: Vec::new(alloc),
            fault: None,
        }
    }

    fn at(&self, text: &[u8]) -> usize {
        self.len.saturating_sub(text.len())
    }

    fn lexed(&self, goal: Goal, text: &'a [u8]) -> Result<(Token<'a>, &'a [u8]), TextFault> {
        let at = self.at(text);
        match token_at(goal, text) {
            Ok(read) => Ok(read),
            Err(Fault::Unexpected) => {
                if begins_decorator(text) {
                    Err(TextFault::NotRead {
                        at,
                        language: Language::Decorators,
                    })
                } else {
                    Err(TextFault::Unexpected {
                        at,
                        expected: Expected::Token,
                    })
                }
            }
            Err(Fault::Unterminated) => Err(TextFault::Unterminated { at }),
            Err(Fault::BadEscape) => Err(TextFault::BadEscape { at }),
            Err(Fault::BadNumber) => Err(TextFault::BadNumber { at }),
            Err(Fault::BadRegex) => Err(TextFault::BadRegex { at }),
        }
    }

    /// Goes to the first token.
    pub fn begin(&mut self, hashbang: bool) {
        self.go_on(!hashbang);
    }

    /// Goes to the next token.
    pub fn advance(&mut self) {
        self.left_behind = self.rest.len();
        self.go_on(false);
    }

    fn go_on(&mut self, fresh: bool) {
        let Some((ended, here)) = skip_blank(self.comments, fresh, self.rest) else {
            let at = self.at(self.rest);
            return self.refuse(TextFault::Unterminated { at });
        };
        self.ended = ended;
        self.here = here;
        self.read_plain(here);
    }

    // Reads the token at the front of a text, most of which are told by their first bytes.
    fn read_plain(&mut self, here: &'a [u8]) {
        let len = plain_name(Goal::Div, here);
        if 0 < len {
            let name = &here[..len];
            self.token = Token::Name(name);
            self.keyword = keyword_of(name);
            self.rest = &here[len..];
        } else if let Some(mark) = plain_mark(Goal::Div, here) {
            self.token = Token::Mark(mark);
            self.keyword = None;
            self.rest = past_byte(here);
        } else {
            self.reread(Goal::Div);
        }
    }

    /// Goes behind the first line, where it begins with `#!`, and answers what is in it behind these.
    pub fn take_hashbang(&mut self) -> Option<&'a [u8]> {
        match token_at(Goal::HashbangOrRegExp, self.rest) {
            Ok((Token::Hashbang(line), rest)) => {
                self.rest = rest;
                Some(line)
            }
            _ => None,
        }
    }

    /// Reads the token here anew, as one of another goal (ECMA-262, 12).
    pub fn reread(&mut self, goal: Goal) {
        match self.lexed(goal, self.here) {
            Ok((token, rest)) => {
                self.token = token;
                self.keyword = keyword_in(token);
                self.rest = rest;
            }
            Err(fault) => self.refuse(fault),
        }
    }

    fn behind(&self, text: &'a [u8]) -> Next<'a> {
        let none = Next {
            ended: false,
            token: Token::End,
            keyword: None,
            rest: text,
        };
        let Some((ended, here)) = skip_blank(self.comments, false, text) else {
            return none;
        };
        match token_at(Goal::Div, here) {
            Ok((token, rest)) => Next {
                ended,
                token,
                keyword: keyword_in(token),
                rest,
            },
            Err(_) => none,
        }
    }

    /// What stands behind the token; where that is none, it is taken for the end.
    pub fn peek(&self) -> Next<'a> {
        self.behind(self.rest)
    }

    /// What stands behind what stands behind the token.
    pub fn peek_behind(&self, next: Next<'a>) -> Next<'a> {
        self.behind(next.rest)
    }

    /// The token here.
    pub fn token(&self) -> Token<'a> {
        self.token
    }

    /// The token as it is written.
    pub fn written(&self) -> &'a [u8] {
        let len = self.here.len().saturating_sub(self.rest.len());
        match self.here.split_at_checked(len) {
            Some((token, _)) => token,
            None => self.here,
        }
    }

    /// The word that the token is, if the grammar knows it.
    pub fn keyword(&self) -> Option<Keyword> {
        self.keyword
    }

    /// Whether a line has ended before the token.
    pub fn line_ended(&self) -> bool {
        self.ended
    }

    /// How many bytes are before the token.
    pub fn start(&self) -> usize {
        self.at(self.here)
    }

    /// How many bytes are before the end of the last token.
    pub fn end(&self) -> usize {
        self.len.saturating_sub(self.left_behind)
    }

    /// How many tokens there may be, at most.
    pub fn len(&self) -> usize {
        self.len
    }

    /// Whether the text ends here.
    pub fn is_end(&self) -> bool {
        matches!(self.token, Token::End)
    }

    /// Whether a punctuator stands here.
    pub fn is_mark(&self, mark: Mark) -> bool {
        is_mark(self.token, mark)
    }

    /// Whether a word stands here.
    pub fn is_keyword(&self, keyword: Keyword) -> bool {
        self.keyword == Some(keyword)
    }

    /// Whether the token is a name, whatever word it is.
    pub fn is_name(&self) -> bool {
        matches!(self.token, Token::Name(_) | Token::EscapedName(_))
    }

    /// Whether the arrow of a function stands here.
    pub fn is_arrow(&self) -> bool {
        self.is_mark(Mark::Arrow) && !self.ended
    }

    /// Keeps what is at fault, unless something was before: from here on the text is at its end.
    pub fn refuse(&mut self, fault: TextFault) {
        if self.fault.is_none() {
            self.fault = Some(fault);
            self.here = &[];
            self.rest = &[];
            self.token = Token::End;
            self.keyword = None;
        }
    }

    /// The first thing at fault.
    pub fn fault(&self) -> Option<TextFault> {
        self.fault
    }

    /// Whether something is at fault.
    pub fn is_refused(&self) -> bool {
        self.fault.is_some()
    }

    /// Refuses a text that nests too deeply here.
    pub fn too_deep(&mut self) {
        let at = self.start();
        self.refuse(TextFault::TooDeep { at });
    }

    /// Refuses what stands at a place.
    pub fn unexpected_at(&mut self, at: usize, expected: Expected) {
        self.refuse(TextFault::Unexpected { at, expected });
    }

    /// Refuses the token here.
    pub fn unexpected(&mut self, expected: Expected) {
        let at = self.start();
        self.refuse(TextFault::Unexpected { at, expected });
    }

    /// Refuses what begins here, as of another language.
    pub fn not_read(&mut self, language: Language) {
        let at = self.start();
        self.refuse(TextFault::NotRead { at, language });
    }

    /// Goes behind a punctuator, if it stands here.
    pub fn take(&mut self, mark: Mark) -> bool {
        let is_there = self.is_mark(mark);
        if is_there {
            self.advance();
        }
        is_there
    }

    /// Goes behind a punctuator that has to stand here.
    pub fn expect(&mut self, mark: Mark) {
        if self.is_mark(mark) {
            self.advance();
        } else {
            self.unexpected(Expected::Mark(mark));
        }
    }

    /// Goes behind a word, if it stands here.
    pub fn take_keyword(&mut self, keyword: Keyword) -> bool {
        let is_there = self.is_keyword(keyword);
        if is_there {
            self.advance();
        }
        is_there
    }

    /// Goes behind a word that has to stand here.
    pub fn expect_keyword(&mut self, keyword: Keyword) {
        if self.is_keyword(keyword) {
            self.advance();
        } else {
            self.unexpected(Expected::Word(spelling_of(keyword)));
        }
    }

    /// Goes behind the end of a statement, which may be left to the reader.
    pub fn end_statement(&mut self) {
        if self.is_mark(Mark::Semicolon) {
            self.advance();
        } else if !self.may_insert() {
            self.unexpected(Expected::Semicolon);
        }
    }

    /// Whether a semicolon may be left to the reader here (ECMA-262, 12.10).
    pub fn may_insert(&self) -> bool {
        self.ended || self.is_end() || self.is_mark(Mark::RightBrace)
    }

    /// Whether a statement ends here.
    pub fn is_statement_end(&self) -> bool {
        self.is_mark(Mark::Semicolon) || self.may_insert()
    }

    /// Whether a word may be a name here (ECMA-262, 13.1.1 and 12.7.2).
    pub fn may_be_name(&self, keyword: Option<Keyword>) -> bool {
        match keyword {
            None => true,
            Some(Keyword::Await) => !self.context.has_await && !self.is_module,
            Some(Keyword::Yield) => !self.context.has_yield && !self.context.is_strict,
            Some(word) => {
                !is_reserved(word) && !(self.context.is_strict && is_reserved_in_strict(word))
            }
        }
    }

    /// Takes the parameter In of the grammar, and answers what the parameters were.
    pub fn open(&mut self) -> Context {
        let context = self.context;
        self.context.has_in = true;
        context
    }

    /// Takes the parameters of a function's body, and answers what they were.
    pub fn open_function(&mut self, is_async: bool, is_generator: bool) -> Context {
        let context = self.context;
        self.context = Context {
            has_in: true,
            has_await: is_async,
            has_yield: is_generator,
            is_strict: context.is_strict,
        };
        context
    }
}
