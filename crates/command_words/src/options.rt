// The options of a run, as its words give them.
ghost use Rattle.std.specs.{Prelude.◌≡◌, Prelude.None, Prelude.map, Prelude.option_map, Option.option_and_then};
ghost use Rattle.command_words.specs.{Options.option_named, Options.option_in, Options.options_in, Options.texts_of, Reading.state, Reading.text, Reading.texts, Reading.with_option, Reading.after_word, Reading.at_end};

/// An option of a run.
#[derive(Clone, Copy, Drop)]
pub(crate) enum RunOption {
    Workers,
    Seed,
    Rules,
}

impl RunOption {
    fn named(name: &str) -> Option<RunOption>
        ensures { result ≡ option_named name.now }
    {
        match name {
            "--workers" => Some(RunOption::Workers),
            "--seed" => Some(RunOption::Seed),
            "--rules" => Some(RunOption::Rules),
            _ => None,
        }
    }
}

/// What a word says in an option's place: the option, and its value where that stands behind `=`.
fn option_in(word: &str) -> Option<(RunOption, Option<&str>)>
    ensures { option_map (λ o. (o.0, text o.1)) result ≡ option_in word.now }
{
    match word.split_once('=') {
        Some((name, value)) => Some((RunOption::named(name)?, Some(value))),
        None => Some((RunOption::named(word)?, None)),
    }
}

/// The values of options, as texts.
#[derive(Clone, Copy, Drop)]
pub(crate) struct Settings<'a> {
    pub workers: Option<&'a str>,
    pub seed: Option<&'a str>,
    pub rules: Option<&'a str>,
}

impl<'a> Settings<'a> {
    /// With one more option, where it doesn't stand yet.
    fn with(self, option: RunOption, value: &'a str) -> Option<Settings<'a>>
        ensures { option_map texts result ≡ with_option (texts self.entry) option value.entry.now }
    {
        let place = match option {
            RunOption::Workers => self.workers,
            RunOption::Seed => self.seed,
            RunOption::Rules => self.rules,
        };
        if place.is_some() {
            return None;
        }
        let value = Some(value);
        Some(match option {
            RunOption::Workers => Settings {
                workers: value,
                ..self
            },
            RunOption::Seed => Settings {
                seed: value,
                ..self
            },
            RunOption::Rules => Settings {
                rules: value,
                ..self
            },
        })
    }
}

/// The values so far, and the option whose value is the next word.
#[derive(Clone, Copy, Drop)]
struct Reading<'a> {
    settings: Settings<'a>,
    waiting: Option<RunOption>,
}

impl<'a> Reading<'a> {
    fn settled(settings: Settings<'a>) -> Reading<'a>
        ensures { state result ≡ (texts settings.entry, None) }
    {
        Reading {
            settings,
            waiting: None,
        }
    }

    /// After a further word.
    fn after(self, word: &'a str) -> Option<Reading<'a>>
        ensures { option_map state result ≡ after_word (state self.entry) word.entry.now }
    {
        let settings = self.settings;
        if let Some(option) = self.waiting {
            return Some(Reading::settled(settings.with(option, word)?));
        }
        match option_in(word)? {
            (option, Some(value)) => Some(Reading::settled(settings.with(option, value)?)),
            (option, None) => Some(Reading {
                settings,
                waiting: Some(option),
            }),
        }
    }
}

/// The values of the options that words give. `None` where a word is outside, a value is missing, or an option stands
/// twice.
pub(crate) fn read_options<'a>(words: &[&'a str]) -> Option<Settings<'a>>
    ensures { option_map texts result ≡ option_and_then texts_of (options_in None (map (λ w. w.now) words.entry.now)) }
{
    let mut reading = Reading::settled(Settings {
        workers: None,
        seed: None,
        rules: None,
    });
    for word in words {
        reading = reading.after(word)?;
    }
    match reading.waiting {
        Some(_) => None,
        None => Some(reading.settings),
    }
}
