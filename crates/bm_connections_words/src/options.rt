//! The options, which come after the names of a capture and a script.
ghost use Rattle.std.specs.Prelude.{◌≡◌, false, map, option_map, string_bytes};
ghost use Rattle.bm_words.specs.Form as forms;
ghost use Rattle.bm_connections_words.specs.Inside.Words.{so_far};
ghost use Rattle.bm_connections_words.specs.Options.{said};
ghost use Rattle.bm_connections_words.specs.Options as spec;

use crate::endpoint::is_endpoint;

/// The format in which the connections are reported.
#[derive(Clone, Copy, PartialEq, Eq)]
pub enum Format {
    /// In lines of words: of connections, servers, changes, replies, causes and advice.
    Lines,
    /// `--csv`: comma-separated fields, a line for each connection.
    Csv,
    /// `--json`: a JSON object for each line, one on a line.
    Json,
    /// `--svg`: a drawing as SVG text.
    Svg,
}

/// Which connections a story is of: those of this client, and if there is a service, of these two.
#[derive(Clone, Copy)]
pub struct Chosen<'a> {
    pub client: &'a str,
    pub service: Option<&'a str>,
}

/// What the options say.
#[derive(Clone, Copy)]
pub struct Options<'a> {
    /// The format, if one is named.
    pub format: Option<Format>,
    /// `--clock`: moments are those of the wall clock.
    pub clock: bool,
    /// `--fail`: the exit status says whether the changes break a connection.
    pub fail: bool,
    /// `--of CLIENT [SERVICE]`: the story of these connections.
    pub chosen: Option<Chosen<'a>>,
}

/// What is read before the first word.
const NOTHING: Reading<'static> = Reading {
    options: Options {
        format: None,
        clock: false,
        fail: false,
        chosen: None,
    },
    awaits_client: false,
};

impl<'a> Options<'a> {
    /// The format of a report: lines, if none is named.
    pub fn format(&self) -> Format
        ensures { result ≡ spec.format_in (said self.now).format }
    {
        self.format.unwrap_or(Format::Lines)
    }

    /// The same in this format, if none is said yet.
    fn with_format(self, format: Format) -> Option<Options<'a>>
        ensures { option_map said result ≡ spec.with_format format (said self.entry) }
    {
        match self.format {
            None => Some(Options {
                format: Some(format),
                ..self
            }),
            Some(_) => None,
        }
    }

    /// The same by the wall clock, if that isn't said yet.
    fn with_clock(self) -> Option<Options<'a>>
        ensures { option_map said result ≡ spec.with_clock (said self.entry) }
    {
        if self.clock {
            return None;
        }
        Some(Options {
            clock: true,
            ..self
        })
    }

    /// The same with a status for what the changes break, if that isn't said yet.
    fn with_fail(self) -> Option<Options<'a>>
        ensures { option_map said result ≡ spec.with_fail (said self.entry) }
    {
        if self.fail {
            return None;
        }
        Some(Options { fail: true, ..self })
    }

    /// The same of this client, if none is said yet.
    fn with_client(self, client: &'a str) -> Option<Options<'a>>
        ensures { option_map said result ≡ spec.with_client client.entry.now (said self.entry) }
    {
        match self.chosen {
            None if is_endpoint(client) => Some(Options {
                chosen: Some(Chosen {
                    client,
                    service: None,
                }),
                ..self
            }),
            _ => None,
        }
    }

    /// The same of this service, if a client is said and no service yet.
    fn with_service(self, service: &'a str) -> Option<Options<'a>>
        ensures { option_map said result ≡ spec.with_service service.entry.now (said self.entry) }
    {
        match self.chosen {
            Some(
                Chosen {
                    client,
                    service: None,
                },
            ) if is_endpoint(service) => Some(Options {
                chosen: Some(Chosen {
                    client,
                    service: Some(service),
                }),
                ..self
            }),
            _ => None,
        }
    }

    /// The same with a word that is neither an option with a value nor such a value.
    fn with_flag(self, word: &'a str) -> Option<Options<'a>>
        ensures { option_map said result ≡ spec.with_flag word.entry.now (said self.entry) }
    {
        match word {
            "--csv" => self.with_format(Format::Csv),
            "--json" => self.with_format(Format::Json),
            "--svg" => self.with_format(Format::Svg),
            "--clock" => self.with_clock(),
            "--fail" => self.with_fail(),
            word => self.with_service(word),
        }
    }

    /// The same with a word that is no option's value.
    fn with_option(self, word: &'a str) -> Option<Reading<'a>>
        ensures { option_map so_far result ≡ spec.with_option word.entry.now (said self.entry) }
    {
        match word {
            "--of" => Some(Reading {
                options: self,
                awaits_client: true,
            }),
            word => Some(Reading::of(self.with_flag(word)?)),
        }
    }

    /// Whether what is said goes together: a story has no format.
    fn is_fit(&self) -> bool
        ensures { result ≡ spec.is_fit (said self.now) }
    {
        self.chosen.is_none() || self.format.is_none()
    }
}

/// The options that are read, and whether the next word is the client of `--of`.
#[derive(Clone, Copy)]
pub(crate) struct Reading<'a> {
    pub(crate) options: Options<'a>,
    pub(crate) awaits_client: bool,
}

impl<'a> Reading<'a> {
    /// These options, which have their values.
    fn of(options: Options<'a>) -> Reading<'a>
        ensures { so_far result ≡ spec.awaiting (said options.entry) false }
    {
        Reading {
            options,
            awaits_client: false,
        }
    }

    /// The same with the next word.
    fn with_word(self, word: &'a str) -> Option<Reading<'a>>
        ensures { option_map so_far result ≡ spec.with_word word.entry.now (so_far self.entry) }
    {
        if self.awaits_client {
            Some(Reading::of(self.options.with_client(word)?))
        } else {
            self.options.with_option(word)
        }
    }

    /// The same with the words that come next.
    fn with_words(self, words: &'a [String]) -> Option<Reading<'a>>
        ensures { option_map so_far result
            ≡ spec.with_words (so_far self.entry) (map string_bytes words.entry.now) }
    {
        match words {
            [] => Some(self),
            [word, rest @ ..] => {
                let read = self.with_word(word.as_str())?;
                read.with_words(rest)
            }
        }
    }

    /// Whether no word is missing.
    fn is_whole(&self) -> bool
        ensures { result ≡ spec.is_whole (so_far self.now) }
    {
        !self.awaits_client
    }
}

/// What the words say that come after the names; None if they aren't options that go together.
pub(crate) fn read_options<'a>(words: &'a [String]) -> Option<Options<'a>>
    ensures { option_map said result ≡ spec.options_in (map string_bytes words.entry.now) }
{
    let read = NOTHING.with_words(words)?;
    if read.is_whole() && read.options.is_fit() {
        Some(read.options)
    } else {
        None
    }
}

/// Whether the word may name a file: it isn't empty and doesn't begin with `-`.
pub(crate) fn is_name(word: &str) -> bool
    ensures { result ≡ forms.is_name word.now }
{
    match word.as_bytes() {
        [] => false,
        [first, ..] => *first != b'-',
    }
}
