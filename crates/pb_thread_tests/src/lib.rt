//! Threads that share an object, held at chosen places by a gate and a device.
#![tactic(auto)]

#[cfg(test)]
mod flags;
#[cfg(test)]
mod gates;
#[cfg(test)]
mod held_device;
#[cfg(test)]
mod maps;
#[cfg(test)]
mod meetings;
#[cfg(test)]
mod passes;
