//! Tests over the site in memory, by public calls alone.
mod helpers;
mod recovered_sites;
mod recoveries;
mod store_lines;
mod vacuums;
mod volume_openings;
mod volume_stops;
mod weed_faults;
mod weed_openings;
mod weed_replies;
mod weed_stops;
mod weed_words;
