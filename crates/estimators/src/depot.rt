// The depot sheet for C: the call on slices by its name for C.
pub use sheet::sheet_report as estimators_sheet_report;
