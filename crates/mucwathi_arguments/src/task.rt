//! What the words of a command line ask for.
ghost use Rattle.std.specs.Prelude.{◌≡◌};
ghost use Rattle.mucwathi_arguments.specs.Asked.{giving_of, is_plain as is_plain_form};

use mucwathi_order::{Command, Goal, Settings, Style};

/// Where the answers to files go.
#[derive(Clone, Copy, Debug, PartialEq, Eq)]
pub enum Target<'a> {
    /// To standard output.
    Output,
    /// Each into the place of its file.
    Place,
    /// Each into a folder, under the name of its file.
    Folder(&'a str),
}

/// As what a program is given.
#[derive(Clone, Copy, Debug, PartialEq, Eq)]
pub enum Source {
    /// As a text.
    Text,
    /// As a text with marks behind its names.
    Marked,
    /// As an envelope, which `jsbase` reads and writes.
    Tree,
}

/// As what a program is given, and whether the answer is an envelope.
#[derive(Clone, Copy, Debug, PartialEq, Eq)]
pub struct Form {
    pub source: Source,
    pub json: bool,
}

impl Form {
    /// From text to text.
    pub fn is_plain(self) -> bool
        ensures { result ≡ is_plain_form self }
    {
        matches!(self.source, Source::Text) && !self.json
    }
}

/// What is to be made of a program that is given or answered otherwise than as a text.
#[derive(Clone, Copy)]
pub struct Giving {
    /// None: each name gets the mark of its scope.
    pub command: Option<Command>,
    pub goal: Option<Goal>,
    pub settings: Settings,
    pub keep_top: Option<bool>,
    pub style: Style,
    pub form: Form,
}

/// What is to be made of texts.
#[derive(Drop)]
pub struct Rewriting<'a> {
    pub command: Command,
    pub goal: Option<Goal>,
    pub settings: Settings,
    /// Whether names of the program's own scope stay: where nothing is said, those of scripts do.
    pub keep_top: Option<bool>,
    pub style: Style,
    /// The names that would be given anew are told, and nothing is written.
    pub lists: bool,
    /// Whether the promise covers a text is told, and nothing is written.
    pub explains: bool,
    /// Where a source map goes, if one is asked for.
    pub map: Option<&'a str>,
    pub target: Target<'a>,
    pub form: Form,
    /// Files; none for standard input.
    pub files: Vec<&'a str>,
}

impl Rewriting<'_> {
    /// The same of a program that is not given, or not answered, as a text.
    pub fn giving(&self) -> Giving
        ensures { result ≡ giving_of self.now }
    {
        Giving {
            command: Some(self.command),
            goal: self.goal,
            settings: self.settings,
            keep_top: self.keep_top,
            style: self.style,
            form: self.form,
        }
    }
}

/// Two files to be compared.
#[derive(Clone, Copy)]
pub struct Judging<'a> {
    pub goal: Option<Goal>,
    pub keep_top: bool,
    /// Whether spellings of literals count.
    pub spelling: bool,
    pub before: &'a str,
    pub after: &'a str,
}

/// A file to be looked into; none for standard input.
#[derive(Clone, Copy)]
pub struct Looking<'a> {
    pub goal: Option<Goal>,
    pub file: Option<&'a str>,
}

/// What is told of a text.
#[derive(Clone, Copy)]
pub enum View {
    /// Its free names.
    Names,
    /// The text with the marks of its names.
    Marks,
    /// Its tree as JSON, with these marks.
    Tree,
    /// The text as a page.
    Page,
}

/// What is asked for.
#[derive(Drop)]
pub enum Task<'a> {
    Rewrite(Rewriting<'a>),
    Judge(Judging<'a>),
    Look(View, Looking<'a>),
    /// Names get the marks of their scopes, of a program that is given otherwise than as a text.
    ResolveGiven(Looking<'a>, Giving),
}
