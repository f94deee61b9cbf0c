// A stored job in lists of its own.
ghost use Rattle.std.specs.Prelude.{◌≤◌};
ghost use Rattle.job.specs.Given.{the_limits};

use job::Job;
use rules::Header;

// A stored job that was taken up: its header, and lists that are never too short, with the job in their first entries.
#[derive(Clone, Copy)]
pub struct TakenUp {
    pub header: Header,
    pub sizes: [u16; Job::MOST_FILES],
    pub sides: [u16; Job::MOST_FILES],
    pub marks: [u16; Job::MOST_FILES],
    pub bounds: [u16; Job::MOST_RECIPES + 1],
    pub pins: [u16; Job::MOST_PINS],
    ghost few_files: { header.files ≤ the_limits.files },
    ghost few_recipes: { header.recipes ≤ the_limits.recipes },
    ghost few_pins: { header.pins ≤ the_limits.pins },
}
