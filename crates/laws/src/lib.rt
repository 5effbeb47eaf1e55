// The laws of one call over the definitions of documents 01 and 02, which the promises rest on. No code cites them.
#![tactic(auto)]
