//! The pages.
ghost use Rattle.std.specs.Prelude.{◌≡◌, ◌≢◌, IfOk, MatchOption};
ghost use Rattle.service_health.specs.Pages.{page_fails, page_path, page_text, page_type};

use crate::counts::CallCounts;
use crate::health::append_health;
use crate::home::append_home;
use crate::metrics::append_metrics;
use hk_base::{ByteList, NoMemory};
use std::alloc::Global;

/// A page that a server has of itself.
#[derive(Clone, Copy, Debug, PartialEq, Eq)]
pub enum Page {
    /// `/`, the counts as HTML.
    Home,
    /// `/health`, whether the logs of both services work, as JSON. Its status is 503 if one fails.
    Health,
    /// `/metrics`, the counts in the Prometheus text format 0.0.4.
    Metrics,
}

/// Returns the page at a path, which is taken as it is, without decoding.
pub fn page_at(path: &str) -> Option<Page>
    ensures { MatchOption result ((page : Page) → path.now ≢ page_path page)
        (λ page. path.now ≡ page_path page) }
{
    match path {
        "/" => Some(Page::Home),
        "/health" => Some(Page::Health),
        "/metrics" => Some(Page::Metrics),
        _ => None,
    }
}

impl Page {
    /// Returns the media type.
    pub(crate) fn media_type(self) -> &'static str
        ensures { result.now ≡ page_type self }
    {
        match self {
            Page::Home => "text/html; charset=utf-8",
            Page::Health => "application/json",
            Page::Metrics => "text/plain; version=0.0.4",
        }
    }

    /// Returns whether the status says that the server fails.
    pub(crate) fn fails(self, counts: &CallCounts) -> bool
        ensures { result ≡ page_fails self counts.now }
    {
        match self {
            Page::Home => false,
            Page::Health => counts.is_failing(),
            Page::Metrics => false,
        }
    }
}

/// Returns the text of a page with these counts.
pub(crate) fn page_text(
    alloc: Global,
    page: Page,
    counts: &CallCounts,
) -> Result<ByteList, NoMemory>
    ensures { IfOk result (λ text. text ≡ page_text page counts.now) }
{
    let mut text = ByteList::new(alloc);
    match page {
        Page::Home => append_home(&mut text, counts)?,
        Page::Health => append_health(&mut text, counts)?,
        Page::Metrics => append_metrics(&mut text, counts)?,
    }
    Ok(text)
}
