//! The lines of a survey, and the map of revisions.

pub(crate) mod counts;
pub(crate) mod finding_rows;
pub(crate) mod kind_lines;
pub(crate) mod prefix_lines;
pub(crate) mod revision_map;
pub(crate) mod survey_lines;
pub(crate) mod survey_text;
