//! Tests of packets, sessions, scripts and the inbox.
#![tactic(auto)]

#[cfg(test)]
mod inbox;
#[cfg(test)]
mod packets;
#[cfg(test)]
mod replies;
#[cfg(test)]
mod scripts;
#[cfg(test)]
mod sessions;
